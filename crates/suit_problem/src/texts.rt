//! The two files of an ending.
ghost use Rattle.std.specs.Prelude.{◌≡◌, ◌≤◌, ◌++◌, ◌+◌, IfOk, OnOk, All, length, map, flat_map};
ghost use Rattle.card_sets.specs.SetWords.{IsCardSet};
ghost use Rattle.layout_maker.specs.Divisions.{divisions};
ghost use Rattle.suit_problem.specs.Endings.{IsEnding, side_cards};
ghost use Rattle.suit_problem.specs.SuitTexts.{suit_deal, division_line, division_lines, suit_layouts};

use crate::ending::Ending;
use crate::sides::{east_hand, north_hand, side_cards, south_hand, west_hand};
use crate::weights::division_weight;
use byte_text::Text;
use card_sets::{Card, CardSet};
use layout_list::Layout;
use layout_maker::Choices;
use pbn_deal::deal_text;
use std::alloc::{AllocError, Global};

/// The deal file of an ending: `wanted` tricks of the suit are to be made beside all entries, in no
/// trump, with South to lead.
#[tactic(auto, unfolding(crate::specs::SuitTexts::suit_deal))]
pub fn suit_deal(alloc: Global, ending: &Ending, wanted: u8) -> Result<Text, AllocError>
    requires { IsEnding ending.now }
    ensures { IfOk result (λ text. text ≡ suit_deal ending.now wanted) }
{
    let hands = [
        Some(north_hand(ending)),
        None,
        Some(south_hand(ending)),
        None,
    ];
    let needed = u64::from(wanted) + 2 * u64::from(ending.entries);
    let mut text = Text::new(alloc);
    text.push(b"[Deal \"")?;
    text.push(deal_text(alloc, hands)?.bytes())?;
    text.push(b"\"]\n[Declarer \"S\"]\n[Contract \"1NT\"]\n[EndNeed \"")?;
    text.push_number(alloc, needed)?;
    text.push(b"\"]\n[EndLead \"S\"]\n")?;
    Ok(text)
}

// The line of a division.
#[tactic(auto, unfolding(crate::specs::SuitTexts::division_line))]
fn division_line(
    alloc: Global,
    ending: &Ending,
    sides: &[Card],
    division: &Layout,
) -> Result<Text, AllocError>
    requires ending { IsEnding ending.now }
    requires sides { sides.now ≡ side_cards ending.now }
    ensures { IfOk result (λ line. line ≡ division_line ending.now division.now) }
{
    let hands = [
        Some(north_hand(ending)),
        Some(east_hand(ending, sides, division.left, division.right)),
        Some(south_hand(ending)),
        Some(west_hand(ending, sides, division.left)),
    ];
    let mut line = Text::new(alloc);
    let weight = division_weight(ending.missing.count(), division.left.count());
    line.push_number(alloc, weight)?;
    line.push(b" ")?;
    line.push(deal_text(alloc, hands)?.bytes())?;
    line.push(b"\n")?;
    Ok(line)
}

// All divisions in which West has this many of the missing cards.
fn divisions(alloc: Global, missing: CardSet, size: u8) -> Result<Vec<Layout>, AllocError>
    requires { IsCardSet missing }
    ensures { IfOk result (λ layouts. layouts.items ≡ divisions size missing) }
{
    let choices = Choices {
        sure: CardSet::empty(),
        free: missing,
        wanted: size,
    };
    choices.layouts(alloc, missing)
}

// Adds a line for each of these divisions.
fn push_divisions(
    text: &mut Text,
    alloc: Global,
    ending: &Ending,
    sides: &[Card],
    layouts: &[Layout],
) -> Result<(), AllocError>
    requires ending { IsEnding ending.now }
    requires sides { sides.now ≡ side_cards ending.now }
    ensures { OnOk result
        (text.new ≡ text.old ++ flat_map (division_line ending.now) layouts.now) }
{
    for layout in layouts {
        text.push(division_line(alloc, ending, sides, layout)?.bytes())?;
    }
    Ok(())
}

/// The layout file of an ending: a line for each division of the missing cards, first those in which
/// West has none of them. Each weighs its vacant spaces: in how many ways West's other cards can be
/// chosen from all that the defenders hold, if each has thirteen cards. What all weights have in
/// common is divided out.
#[tactic(auto, unfolding(crate::specs::SuitTexts::suit_layouts))]
pub fn suit_layouts(alloc: Global, ending: &Ending) -> Result<Text, AllocError>
    requires { IsEnding ending.now }
    ensures { IfOk result (λ text. text ≡ suit_layouts ending.now) }
{
    let sides = side_cards(alloc, ending)?;
    let mut text = Text::new(alloc);
    for size in 0..ending.missing.count() + 1 {
        let layouts = divisions(alloc, ending.missing, size)?;
        push_divisions(&mut text, alloc, ending, &sides, &layouts)?;
    }
    Ok(text)
}
