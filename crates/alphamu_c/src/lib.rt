//! alphamu for C, and for every language that calls C: the exports alone.
//! It builds on `library_text` for questions by text, and on `bit_answers` for questions by bits.
//! Each contract says what the number that is returned means for the caller's memory.
#![tactic(auto)]

ghost use Rattle.std.specs.Prelude.{◌≡◌};
ghost use Rattle.library_text.specs.declared.request.Request.TheVariants as asks;
ghost use Rattle.library_text.specs.Answered.{IsAnswered};
ghost use Rattle.bit_answers.specs.Answers.{AreFrontWords, AreWorths, HoldsAt, IsChoice};
ghost use Rattle.bit_answers.specs.Delivery.{IsChosen, IsListed};
ghost use Rattle.bit_answers.specs.Faults.{IsRefusedFor};
ghost use Rattle.bit_answers.specs.Strategies.{IsNoStrategy, IsStrategy};

use bit_answers::{Choice, Worth, card, cards, choose, deliver, front, strategy};
use bit_questions::Question;
use flat_plans::PlanNode;
use library_text::{Request, answer};
use std::alloc::Global;

/// The number of the interface. It changes if an export, a struct or a number of the header does.
#[unsafe(no_mangle)]
pub extern "C" fn alphamu_version() -> u32
    ensures { result ≡ 1 }
{
    1
}

/// The report of a deal and its layouts, for 1 to 26 moves and 1 node or more after a root card.
///
/// 0: the first `written` bytes of `out` are the text. 8: it needs room for `written` bytes, and
/// `out` is as it was. Any other number is the status with which the program would refuse, and the
/// first `written` bytes of `out` are its line, or as much of it as there is room for.
#[unsafe(no_mangle)]
pub extern "C" fn alphamu_report(
    alloc: Global,
    deal: &[u8],
    layouts: &[u8],
    moves: u32,
    nodes: u64,
    out: &mut [u8],
    written: &mut usize,
) -> u32
    ensures { IsAnswered (asks.Report deal.now layouts.now moves nodes)
        result out.old out.new written.new }
{
    let request = Request::Report {
        deal,
        layouts,
        moves,
        nodes,
    };
    answer(alloc, request, out, written)
}

/// The card to play. The numbers are those of `alphamu_report`.
#[unsafe(no_mangle)]
pub extern "C" fn alphamu_card(
    alloc: Global,
    deal: &[u8],
    layouts: &[u8],
    moves: u32,
    nodes: u64,
    out: &mut [u8],
    written: &mut usize,
) -> u32
    ensures { IsAnswered (asks.Card deal.now layouts.now moves nodes)
        result out.old out.new written.new }
{
    let request = Request::Card {
        deal,
        layouts,
        moves,
        nodes,
    };
    answer(alloc, request, out, written)
}

/// What plain sampling believes of each card. The numbers are those of `alphamu_report`.
#[unsafe(no_mangle)]
pub extern "C" fn alphamu_fusion(
    alloc: Global,
    deal: &[u8],
    layouts: &[u8],
    out: &mut [u8],
    written: &mut usize,
) -> u32
    ensures { IsAnswered (asks.Fusion deal.now layouts.now) result out.old out.new written.new }
{
    answer(alloc, Request::Fusion { deal, layouts }, out, written)
}

/// All layouts that the play of a deal allows. The numbers are those of `alphamu_report`.
#[unsafe(no_mangle)]
pub extern "C" fn alphamu_list(
    alloc: Global,
    deal: &[u8],
    out: &mut [u8],
    written: &mut usize,
) -> u32
    ensures { IsAnswered (asks.List deal.now) result out.old out.new written.new }
{
    answer(alloc, Request::List { deal }, out, written)
}

/// Whether each plan of a report wins exactly its vector. The numbers are those of
/// `alphamu_report`.
#[unsafe(no_mangle)]
pub extern "C" fn alphamu_check(
    alloc: Global,
    deal: &[u8],
    layouts: &[u8],
    report: &[u8],
    out: &mut [u8],
    written: &mut usize,
) -> u32
    ensures { IsAnswered (asks.Check deal.now layouts.now report.now)
        result out.old out.new written.new }
{
    let request = Request::Check {
        deal,
        layouts,
        report,
    };
    answer(alloc, request, out, written)
}

/// The card to play at the node that the numbers say, and the weight that it wins.
///
/// 0: `choice` is the answer. Any other number is that of a fault, and `choice` is as it was.
#[unsafe(no_mangle)]
pub extern "C" fn alphamu_bits_card(
    alloc: Global,
    question: &Question,
    lefts: &[u64],
    weights: &[u32],
    choice: &mut Choice,
) -> u32
    ensures { IsChosen
        (λ found. HoldsAt question.now lefts.now
        (λ n. IsChoice n weights.now question.now.moves found))
        (IsRefusedFor question.now lefts.now weights.now) result choice.old choice.new }
{
    choose(card(alloc, question, lefts, weights), choice)
}

/// What each legal card is worth, in card order.
///
/// 0: the first `written` items of `worths` are the answer. 8: there are `written` of them. Any
/// other number is that of a fault. Unless it is 0, `worths` is as it was.
#[unsafe(no_mangle)]
pub extern "C" fn alphamu_bits_cards(
    alloc: Global,
    question: &Question,
    lefts: &[u64],
    weights: &[u32],
    worths: &mut [Worth],
    written: &mut usize,
) -> u32
    ensures { IsListed
        (λ all. HoldsAt question.now lefts.now
        (λ n. AreWorths n weights.now question.now.moves all))
        (IsRefusedFor question.now lefts.now weights.now)
        result worths.old worths.new written.new }
{
    deliver(cards(alloc, question, lefts, weights), worths, written)
}

/// The vectors of the front in its order, four words each: layout i is bit i % 64 of word i / 64.
/// The numbers are those of `alphamu_bits_cards`.
#[unsafe(no_mangle)]
pub extern "C" fn alphamu_bits_front(
    alloc: Global,
    question: &Question,
    lefts: &[u64],
    weights: &[u32],
    vectors: &mut [u64],
    written: &mut usize,
) -> u32
    ensures { IsListed
        (λ words. HoldsAt question.now lefts.now
        (λ n. AreFrontWords n question.now.moves words))
        (IsRefusedFor question.now lefts.now weights.now)
        result vectors.old vectors.new written.new }
{
    deliver(front(alloc, question, lefts, weights), vectors, written)
}

/// The strategy for the vector at a place of the front, from 0, as an array of nodes.
/// The numbers are those of `alphamu_bits_cards`.
#[unsafe(no_mangle)]
pub extern "C" fn alphamu_bits_strategy(
    alloc: Global,
    question: &Question,
    lefts: &[u64],
    weights: &[u32],
    vector: usize,
    nodes: &mut [PlanNode],
    written: &mut usize,
) -> u32
    ensures { IsListed
        (λ all. HoldsAt question.now lefts.now
        (λ n. IsStrategy n question.now.moves vector all))
        (IsNoStrategy question.now lefts.now weights.now vector)
        result nodes.old nodes.new written.new }
{
    deliver(
        strategy(alloc, question, lefts, weights, vector),
        nodes,
        written,
    )
}
