//! Every layout of a board that the play allows.
ghost use Rattle.std.specs.Prelude.{◌≡◌, ◌≤◌, [], Some, Ok, map, length, MatchOption, IfSome};
ghost use Rattle.std.specs.Prelude.{MatchResult};
ghost use Rattle.card_sets.specs.SetWords.{IsCardSet};
ghost use Rattle.pbn_deal.specs.Boards.{IsBoard};
ghost use Rattle.pbn_deal.specs.BoardRead.{together};
ghost use Rattle.layout_maker.specs.Divisions.{most_unseen, hands_of_size, layout_with};
ghost use Rattle.layout_maker.specs.Divisions.{layouts_over, if_few, layouts_made, IsMakeFaultOf};

use crate::allowed::may_hold;
use crate::dividing::{Choices, fitting_choices};
use crate::fault::MakeFault;
use card_sets::CardSet;
use layout_list::{Layout, MOST_LISTED};
use pbn_deal::Board;
use std::alloc::Global;

// The layouts with these hands of Left's, if they are few enough.
fn listed(alloc: Global, unseen: CardSet, choices: &Choices) -> Result<Vec<Layout>, MakeFault>
    requires a_set { IsCardSet choices.now.sure }
    requires few { length choices.now.free ≤ most_unseen }
    requires small { choices.now.wanted ≤ 13 }
    ensures { let layouts = map (layout_with unseen)
        (map (together choices.now.sure) (hands_of_size choices.now.wanted choices.now.free)) in
        MatchResult result (λ listed. if_few layouts ≡ Ok listed.items)
        (IsMakeFaultOf (if_few layouts)) }
{
    let count = choices.count();
    if count == 0 {
        return Err(MakeFault::NoneFit);
    }
    if count > MOST_LISTED as u64 {
        return Err(MakeFault::TooManyFit(u128::from(count)));
    }
    match choices.layouts(alloc, unseen) {
        Ok(layouts) => Ok(layouts),
        Err(_) => Err(MakeFault::Memory),
    }
}

/// Left's hands in the layouts over these unseen cards that the play allows: `None` exactly if it
/// allows no layout. In the order of these hands the layouts are in the order of `all_layouts`.
pub fn allowed_choices(board: &Board, unseen: CardSet) -> Option<Choices>
    requires sound { IsBoard board.now }
    requires shown { board.now.unseen ≡ Some unseen }
    ensures hands { MatchOption result
        (layouts_over board.now unseen ≡ [])
        (λ choices. layouts_over board.now unseen ≡ map (layout_with unseen)
        (map (together choices.sure) (hands_of_size choices.wanted choices.free))) }
    ensures a_set { IfSome result (λ choices. IsCardSet choices.sure) }
    ensures few { IfSome result (λ choices. length choices.free ≤ most_unseen) }
    ensures small { IfSome result (λ choices. choices.wanted ≤ 13) }
{
    let may = may_hold(board, unseen)?;
    fitting_choices(&may, unseen, board.declarer_hand().count())
}

/// Every division of the unseen cards that the play allows, each defender with half of them before
/// the first card.
///
/// The order is that of Left's cards still held, compared card by card in card order. The fault is
/// `NotShown` exactly when the board doesn't tell the unseen cards, else `NoneFit` exactly when the
/// play allows no division, and else `TooManyFit` exactly when it allows more than 256, with their
/// number. `Memory` may come in place of any answer.
pub fn all_layouts(alloc: Global, board: &Board) -> Result<Vec<Layout>, MakeFault>
    ensures { MatchResult result
        (λ layouts. layouts_made board.now ≡ Ok layouts.items)
        (IsMakeFaultOf (layouts_made board.now)) }
{
    let Some(unseen) = board.unseen() else {
        return Err(MakeFault::NotShown);
    };
    let Some(choices) = allowed_choices(board, unseen) else {
        return Err(MakeFault::NoneFit);
    };
    listed(alloc, unseen, &choices)
}
