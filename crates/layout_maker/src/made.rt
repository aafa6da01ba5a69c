//! A problem made from a number: an ending of five tricks and forty layouts of it, in the forms in
//! which they are read.
ghost use Rattle.std.specs.Prelude.{◌≡◌, ◌≤◌, ◌++◌, ℕ, length, IfOk, OnOk};
ghost use Rattle.card_sets.specs.SetWords.{IsCardSet};
ghost use Rattle.layout_maker.specs.Generator.{orders};
ghost use Rattle.layout_maker.specs.MadeProblem.{set_of, short_pack, tag_line, deal_file, order_line, layout_file, made_deal, made_layouts, IsAcceptedProblem};

use crate::generator::Generator;
use byte_text::Text;
use card_sets::{Card, CardSet, Rank, Suit};
use pbn_deal::deal_text;
use std::alloc::{AllocError, Global};

/// How many layouts a problem has.
const LAYOUTS: u8 = 40;

/// A problem made from a number: its deal file, its layout file, and the moves of declarer's side
/// that it is solved with.
#[derive(Debug, Drop)]
pub struct Made {
    pub deal: Text,
    pub layouts: Text,
    pub moves: u8,
}

// The tens, jacks, queens, kings and aces, in card order.
fn short_pack() -> [Card; 20]
    ensures { result ≡ short_pack }
{
    let mut cards = [Card::default(); 20];
    for (place, card) in cards.iter_mut().enumerate() {
        *card = Card::new(Suit::ALL[place / 5], Rank::new(10 + place as u8 % 5));
    }
    cards
}

// The set of these cards.
fn set_of(cards: &[Card]) -> CardSet
    ensures value { result ≡ set_of cards.now }
    ensures a_set { IsCardSet result }
{
    let mut set = CardSet::empty();
    for card in cards {
        set = set.with(*card);
    }
    set
}

// Adds a tag pair on a line of its own.
fn push_tag(text: &mut Text, name: &[u8], value: &[u8]) -> Result<(), AllocError>
    ensures { OnOk result (text.new ≡ text.old ++ tag_line name.now value.now) }
{
    text.push(b"[")?;
    text.push(name)?;
    text.push(b" \"")?;
    text.push(value)?;
    text.push(b"\"]\n")?;
    Ok(())
}

// The deal file of these hands of North and South.
#[tactic(auto, unfolding(crate::specs::MadeProblem::deal_file))]
fn deal_file(alloc: Global, north: CardSet, south: CardSet) -> Result<Text, AllocError>
    ensures { IfOk result (λ text. text ≡ deal_file north south) }
{
    let hands = deal_text(alloc, [Some(north), None, Some(south), None])?;
    let mut text = Text::new(alloc);
    push_tag(&mut text, b"Deal", hands.bytes())?;
    push_tag(&mut text, b"Declarer", b"S")?;
    push_tag(&mut text, b"Contract", b"1NT")?;
    push_tag(&mut text, b"EndNeed", b"2")?;
    push_tag(&mut text, b"EndLead", b"S")?;
    Ok(text)
}

// Adds the line of a layout: the first five of these cards are West's, and the others are East's.
#[tactic(auto, unfolding(crate::specs::MadeProblem::order_line))]
fn push_layout(
    alloc: Global,
    text: &mut Text,
    north: CardSet,
    south: CardSet,
    order: &[Card],
) -> Result<(), AllocError>
    requires { 5 ≤ length order.now }
    ensures { OnOk result (text.new ≡ text.old ++ order_line north south order.now) }
{
    let (west, east) = order.split_at(5);
    let hands = [
        Some(north),
        Some(set_of(east)),
        Some(south),
        Some(set_of(west)),
    ];
    let line = deal_text(alloc, hands)?;
    text.push(line.bytes())?;
    text.push(b"\n")
}

// A layout file of forty lines, for the defenders' cards shuffled forty times over.
fn layout_file(
    alloc: Global,
    generator: &mut Generator,
    north: CardSet,
    south: CardSet,
    others: &mut [Card],
) -> Result<Text, AllocError>
    requires { 5 ≤ length others.old }
    ensures { IfOk result
        (λ text. text ≡ layout_file north south
        (orders 40 (record { items = others.old; state = generator.old }))) }
{
    let mut text = Text::new(alloc);
    for _ in 0..LAYOUTS {
        generator.shuffle(others);
        push_layout(alloc, &mut text, north, south, others)?;
    }
    Ok(text)
}

/// The problem of a number, the same for the same number: an ending of five tricks in no trump,
/// with the tens and higher cards of each suit, of which declarer, South, who leads, is to make
/// two. The forty layouts may repeat.
///
/// The first order of the twenty cards is card order, and a generator starts from the number modulo
/// 65,537. It shuffles them; South has the first five, and North, the dummy, the next five. For
/// each layout it shuffles the other ten again, in the order that they have; West has the first
/// five and East the others.
pub fn made_problem(alloc: Global, number: u64) -> Result<Made, AllocError>
    ensures { IfOk result (λ made. (made.deal ≡ made_deal number)
        × (made.layouts ≡ made_layouts number) × (made.moves ≡ 3)) }
{
    let mut generator = Generator::new(number);
    let mut cards = short_pack();
    generator.shuffle(&mut cards);
    let (own, others) = cards.split_at_mut(10);
    let (south, north) = own.split_at(5);
    let north = set_of(north);
    let south = set_of(south);
    Ok(Made {
        deal: deal_file(alloc, north, south)?,
        layouts: layout_file(alloc, &mut generator, north, south, others)?,
        moves: 3,
    })
}

/// The texts of every number's problem are accepted where they are read as files: one game, a
/// board, all forty layouts, and a card of declarer's side to choose.
pub fn made_problems_are_accepted()
    ensures { (number : ℕ) → IsAcceptedProblem number }
{}
