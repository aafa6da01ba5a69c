//! Left's hands of a size that fit: how many there are, and their list.
ghost use Rattle.std.specs.Prelude.{◌≡◌, ◌≤◌, ◌<◌, ◌+◌, ◌++◌, ℕ, [], slice_index, length, map, MatchOption, IfSome, OnOk, IfOk};
ghost use Rattle.card_sets.specs.SetWords.{IsCardSet};
ghost use Rattle.pbn_deal.specs.BoardRead.{together};
ghost use Rattle.layout_maker.specs.Divisions.{most_unseen, hands_of_size, layout_with};
ghost use Rattle.layout_maker.specs.Choosing.{fitting_hands, ways};

use crate::allowed::MayHold;
use card_sets::CardSet;
use layout_list::Layout;
use std::alloc::{AllocError, Global};

/// Left's hands: each has the sure cards, and this many of the free ones.
#[derive(Clone, Copy, Debug)]
pub struct Choices {
    pub sure: CardSet,
    pub free: CardSet,
    pub wanted: u8,
}

/// Left's hands of this size that fit what each defender may hold: `None` only if none does.
///
/// Each has the cards that Right can't hold, and the rest from those that both may hold.
pub fn fitting_choices(may: &MayHold, unseen: CardSet, size: u8) -> Option<Choices>
    ensures hands { MatchOption result
        (fitting_hands may.now size unseen ≡ [])
        (λ choices. fitting_hands may.now size unseen
        ≡ map (together choices.sure) (hands_of_size choices.wanted choices.free)) }
    ensures a_set { IfSome result (λ choices. IsCardSet choices.sure) }
    ensures small { IfSome result (λ choices. choices.wanted ≤ size) }
    ensures few { IfSome result (λ choices. length choices.free ≤ length unseen) }
{
    if !unseen.is_subset(may.left.either(may.right)) {
        return None;
    }
    let sure = unseen.minus(may.right);
    let wanted = size.checked_sub(sure.count())?;
    Some(Choices {
        sure,
        free: unseen.both(may.left).both(may.right),
        wanted,
    })
}

// In how many ways 0 to 13 of one thing more can be chosen.
fn with_one_more(row: &[u64; 14], things: u8) -> [u64; 14]
    requires few { things < most_unseen }
    requires row { (chosen : ℕ) → chosen < 14 → slice_index row.now chosen ≡ ways things chosen }
    ensures { (chosen : ℕ) → chosen < 14 → slice_index result chosen ≡ ways (things + 1) chosen }
{
    let mut next = *row;
    for chosen in 1..14 {
        next[chosen] = row[chosen - 1] + row[chosen];
    }
    next
}

/// The number of ways to choose `chosen` of the things.
pub fn ways(things: u8, chosen: u8) -> u64
    requires few { things ≤ most_unseen }
    requires small { chosen ≤ 13 }
    ensures { result ≡ ways things chosen }
{
    let mut row = [0; 14];
    row[0] = 1;
    for thing in 0..things {
        row = with_one_more(&row, thing);
    }
    row[chosen as usize]
}

// Adds the layouts in which Left has these cards and `wanted` of the free ones.
fn add_layouts(
    layouts: &mut Vec<Layout>,
    unseen: CardSet,
    hand: CardSet,
    free: CardSet,
    wanted: u8,
) -> Result<(), AllocError>
    requires { IsCardSet hand }
    ensures { OnOk result (layouts.new.items ≡ layouts.old.items ++ map
        (λ more. layout_with unseen (together hand more)) (hands_of_size wanted free)) }
{
    if wanted == 0 {
        layouts.push(Layout {
            left: hand,
            right: unseen.minus(hand),
        })?;
        return Ok(());
    }
    if free.count() < wanted {
        return Ok(());
    }
    let mut rest = free;
    let Some(card) = rest.pop_first() else {
        return Ok(());
    };
    add_layouts(layouts, unseen, hand.with(card), rest, wanted - 1)?;
    add_layouts(layouts, unseen, hand, rest, wanted)
}

impl Choices {
    /// How many there are.
    pub fn count(&self) -> u64
        requires few { length self.now.free ≤ most_unseen }
        requires small { self.now.wanted ≤ 13 }
        ensures { result ≡ length (hands_of_size self.now.wanted self.now.free) }
    {
        ways(self.free.count(), self.wanted)
    }

    /// The layouts with these hands, those with the first card before those without it.
    pub fn layouts(&self, alloc: Global, unseen: CardSet) -> Result<Vec<Layout>, AllocError>
        requires { IsCardSet self.now.sure }
        ensures { IfOk result (λ layouts. layouts.items
            ≡ map (layout_with unseen)
            (map (together self.now.sure) (hands_of_size self.now.wanted self.now.free))) }
    {
        let mut layouts = Vec::new(alloc);
        add_layouts(&mut layouts, unseen, self.sure, self.free, self.wanted)?;
        Ok(layouts)
    }
}
