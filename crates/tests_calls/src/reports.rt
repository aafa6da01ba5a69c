//! The report of an answer in memory, byte for byte.
ghost use Rattle.std.specs.Prelude.{◌≡◌, IfOk, length};

use am_report::{Entry, SolveAnswer, solve_text};
use byte_text::Text;
use card_sets::{Card, Rank, Suit};
use layout_list::layouts;
use pbn_deal::{Board, read_board};
use pbn_text::games;
use std::alloc::Global;
use std::test::Fail;
use strategy_tree::read_plan;
use win_vectors::WinVector;

// Two tricks in spades and no-trump, of which one is needed, with North, dummy, to lead; and two
// layouts of them.
const ENDING: &str =
    "[Deal \"N:32... - KJ... -\"]\n[Declarer \"S\"]\n[Contract \"1NT\"]\n[EndNeed \"1\"]\n[EndLead \"N\"]\n";

const ENDING_LAYOUTS: &str = "N:32... A7... KJ... Q5...\nN:32... Q7... KJ... A5...\n";

// The seven goes to the jack or to the king, which of them is the one difference of two plans.
const JACK_ON_SEVEN: &str =
    "play S2\nhear 3\non S7\nplay SJ\nstop\non SQ\nplay SK\nstop\non SA\nplay SJ\nstop\n";

const KING_ON_SEVEN: &str =
    "play S2\nhear 3\non S7\nplay SK\nstop\non SQ\nplay SK\nstop\non SA\nplay SJ\nstop\n";

const ENDING_REPORT: &str =
    "alphamu report 1\ndeclarer S\ntrump NT\nneed 1\nhand S KJ...\nhand N 32...\ntrick N -\nturn N\nmoves 2\nkept 1 2\nfront 2\nvector 10 count 1\nplay S2\nhear 3\non S7\nplay SK\nstop\non SQ\nplay SK\nstop\non SA\nplay SJ\nstop\nvector 01 count 1\nplay S2\nhear 3\non S7\nplay SJ\nstop\non SQ\nplay SK\nstop\non SA\nplay SJ\nstop\ncard S2 count 1\nend\n";

// The board of the ending.
fn board(alloc: Global) -> Result<Board, Fail> {
    let games = games(alloc, ENDING.as_bytes())?;
    let game = games.first().ok_or("there is no game")?;
    if game.tags.is_empty() {
        return Err("the game has no tag".into());
    }
    Ok(read_board(alloc, game)?)
}

// A vector of two layouts with a plan in text.
fn entry(alloc: Global, first: bool, text: &str) -> Result<Entry, Fail>
    ensures { IfOk result (λ entry. length entry.vector ≡ 2) }
{
    let (plan, _) = read_plan(alloc, text.as_bytes(), 0).map_err(|_| "a plan is read")?;
    let vector = WinVector::none(2).set(0, first).set(1, !first);
    Ok(Entry { vector, plan })
}

// The report of the ending with two moves and these two vectors, each of which wins one layout.
fn ending_report(alloc: Global, first: Entry, second: Entry) -> Result<Text, Fail>
    requires first { length first.vector ≡ 2 }
    requires second { length second.vector ≡ 2 }
{
    let board = board(alloc)?;
    let kept = layouts(alloc, ENDING_LAYOUTS.as_bytes(), &board)?;
    if kept.weights.width() != 2 {
        return Err("there are two layouts".into());
    }
    let mut entries = Vec::new(alloc);
    entries.push(first)?;
    entries.push(second)?;
    let answer = SolveAnswer {
        entries,
        card: Card::new(Suit::Spades, Rank::new(2)),
        weight: 1,
    };
    Ok(solve_text(alloc, &board, &kept, 2, &answer)?)
}

#[test]
fn an_ending_is_reported_with_a_plan_for_each_vector(rt: HostRuntime) -> Result<(), Fail> {
    let alloc = rt.alloc();
    let king = entry(alloc, true, KING_ON_SEVEN)?;
    let jack = entry(alloc, false, JACK_ON_SEVEN)?;
    let text = ending_report(alloc, king, jack)?;
    assert_eq!(rt; text.bytes(), ENDING_REPORT.as_bytes());
    Ok(())
}
