//! A walk over the layouts that the play allows.
ghost use Rattle.std.specs.Prelude.{◌≡◌, ◌+◌, ◌<◌, ◌++◌, ◌∷◌, ◌^◌, []};
ghost use Rattle.std.specs.Prelude.{length, filter, AllPairs, OnOk};
ghost use Rattle.card_sets.specs.SetWords.{IsCardSet};
ghost use Rattle.layout_maker.specs.Divisions.{hands_of_size, layout_with};
ghost use Rattle.layout_draw.specs.Fitting.{fits, at_places};
ghost use Rattle.layout_draw.specs.Walks.{fitting_from};

use crate::fitting::Conditions;
use card_sets::CardSet;
use drawn_places::is_among;
use layout_maker::Layout;
use std::alloc::AllocError;

/// What a walk looks for.
#[derive(Clone, Copy, Debug)]
pub(crate) struct Task<'a> {
    /// The cards that the defenders hold together.
    pub unseen: CardSet,
    /// What their hands have to meet.
    pub conditions: &'a Conditions,
    /// Which of the fitting layouts to keep, by their places, in order.
    pub places: &'a [usize],
}

/// How far a walk has come.
#[derive(Debug, Drop)]
pub(crate) struct Progress {
    /// How many layouts fit so far.
    pub count: usize,
    /// Those that are kept.
    pub kept: Vec<Layout>,
}

impl Progress {
    // Takes the layout in which Left has this hand.
    fn visit(&mut self, task: &Task<'_>, left: CardSet) -> Result<(), AllocError>
        requires ascending { AllPairs (λ place later. place < later) task.now.places.now }
        requires room { self.old.count + 1 < 2 ^ 64 }
        ensures count { OnOk result (self.new.count ≡ self.old.count
            + length (filter (fits task.now.conditions.now.left.items
            task.now.conditions.now.right.items) (layout_with task.now.unseen left ∷ []))) }
        ensures kept { OnOk result (self.new.kept.items ≡ self.old.kept.items
            ++ at_places task.now.places.now self.old.count
            (filter (fits task.now.conditions.now.left.items
            task.now.conditions.now.right.items) (layout_with task.now.unseen left ∷ []))) }
    {
        let layout = Layout {
            left,
            right: task.unseen.minus(left),
        };
        if !task.conditions.fit(&layout) {
            return Ok(());
        }
        if is_among(task.places, self.count) {
            self.kept.push(layout)?;
        }
        self.count += 1;
        Ok(())
    }

    /// Takes the layouts in which Left has these cards and `wanted` of the free ones, those with
    /// the first free card before those without it.
    pub fn walk(
        &mut self,
        task: &Task<'_>,
        hand: CardSet,
        free: CardSet,
        wanted: u8,
    ) -> Result<(), AllocError>
        requires a_set { IsCardSet hand }
        requires ascending { AllPairs (λ place later. place < later) task.now.places.now }
        requires room { self.old.count + length (hands_of_size wanted free) < 2 ^ 64 }
        ensures count { OnOk result (self.new.count ≡ self.old.count
            + length (fitting_from task.now.conditions.now.left.items
            task.now.conditions.now.right.items task.now.unseen hand wanted free)) }
        ensures kept { OnOk result (self.new.kept.items ≡ self.old.kept.items
            ++ at_places task.now.places.now self.old.count
            (fitting_from task.now.conditions.now.left.items
            task.now.conditions.now.right.items task.now.unseen hand wanted free)) }
    {
        if wanted == 0 {
            return self.visit(task, hand);
        }
        if free.count() < wanted {
            return Ok(());
        }
        let mut rest = free;
        let Some(card) = rest.pop_first() else {
            return Ok(());
        };
        self.walk(task, hand.with(card), rest, wanted - 1)?;
        self.walk(task, hand, rest, wanted)
    }
}
