//! Layouts drawn from those that fit.
ghost use Rattle.std.specs.Prelude.{◌≡◌, ◌≤◌, ◌<◌, length, AllPairs, IfOk, MatchResult};
ghost use Rattle.card_sets.specs.SetWords.{IsCardSet};
ghost use Rattle.layout_maker.specs.Divisions.{most_unseen, IsMakeFaultOf};
ghost use Rattle.layout_draw.specs.Fitting.{at_places, fitting_made, IsDrawOf};
ghost use Rattle.layout_draw.specs.Walks.{fitting_from};

use crate::fitting::Conditions;
use crate::walk::{Progress, Task};
use drawn_places::draw_places;
use layout_maker::{Choices, Layout, MakeFault, allowed_choices};
use pbn_deal::Board;
use std::alloc::{AllocError, Global};

/// Layouts drawn from those that the play and the conditions allow.
#[derive(Debug, Drop)]
pub struct Drawn {
    /// How many layouts fit.
    pub count: usize,
    /// Those drawn, in the order of all layouts.
    pub layouts: Vec<Layout>,
}

// The count of the fitting layouts with these hands of Left's, and those of them at the places.
fn walked(alloc: Global, task: &Task<'_>, choices: &Choices) -> Result<Progress, AllocError>
    requires a_set { IsCardSet choices.now.sure }
    requires few { length choices.now.free ≤ most_unseen }
    requires ascending { AllPairs (λ place later. place < later) task.now.places.now }
    ensures count { IfOk result (λ progress. progress.count
        ≡ length (fitting_from task.now.conditions.now.left.items
        task.now.conditions.now.right.items task.now.unseen
        choices.now.sure choices.now.wanted choices.now.free)) }
    ensures kept { IfOk result (λ progress. progress.kept.items
        ≡ at_places task.now.places.now 0 (fitting_from task.now.conditions.now.left.items
        task.now.conditions.now.right.items task.now.unseen
        choices.now.sure choices.now.wanted choices.now.free)) }
{
    let mut progress = Progress {
        count: 0,
        kept: Vec::new(alloc),
    };
    progress.walk(task, choices.sure, choices.free, choices.wanted)?;
    Ok(progress)
}

/// Draws `amount` of the layouts of a board that the play and the conditions on the defenders'
/// hands allow, or takes all of them if there are fewer. The same seed draws the same layouts on
/// every machine.
///
/// They are different layouts of `all_layouts`, in that order. `count` is the exact number of
/// layouts that fit. The fault is `NotShown` exactly when the board doesn't show the unseen cards,
/// and else `NoneFit` exactly when no layout fits. `Memory` may come in place of any answer.
pub fn draw_layouts(
    alloc: Global,
    board: &Board,
    conditions: &Conditions,
    seed: u64,
    amount: usize,
) -> Result<Drawn, MakeFault>
    ensures { MatchResult result
        (λ drawn. IsDrawOf (fitting_made board.now conditions.now.left.items
        conditions.now.right.items) amount drawn.count drawn.layouts.items)
        (IsMakeFaultOf (fitting_made board.now conditions.now.left.items
        conditions.now.right.items)) }
{
    let Some(unseen) = board.unseen() else {
        return Err(MakeFault::NotShown);
    };
    let Some(choices) = allowed_choices(board, unseen) else {
        return Err(MakeFault::NoneFit);
    };
    let none = Task {
        unseen,
        conditions,
        places: [].as_slice(),
    };
    let count = walked(alloc, &none, &choices)?.count;
    if count == 0 {
        return Err(MakeFault::NoneFit);
    }
    let places = draw_places(alloc, seed, count, amount.min(count))?;
    let task = Task {
        unseen,
        conditions,
        places: &places,
    };
    let layouts = walked(alloc, &task, &choices)?.kept;
    Ok(Drawn { count, layouts })
}
