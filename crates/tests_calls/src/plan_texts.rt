//! Plans in text: the strategy of a worked example both ways.
ghost use Rattle.std.specs.Prelude.{◌≤◌};

use byte_text::Text;
use card_sets::{Card, Rank, Suit};
use std::alloc::{AllocError, Global};
use std::process::Abort;
use std::test::Fail;
use strategy_tree::{Plan, Reply, plan_text_reads_back};

/// The two of spades is led. The jack goes on the seven and on the ace, and the king on the queen.
const WORKED: &'static str =
    "play S2\nhear 3\non S7\nplay SJ\nstop\non SQ\nplay SK\nstop\non SA\nplay SJ\nstop\n";

fn spade(rank: u8) -> Card
    requires low { 2 ≤ rank }
    requires high { rank ≤ 14 }
{
    Card::new(Suit::Spades, Rank::new(rank))
}

fn then_stop(alloc: Global, rank: u8) -> Result<Plan, AllocError>
    requires low { 2 ≤ rank }
    requires high { rank ≤ 14 }
{
    Ok(Plan::Play(spade(rank), Box::new(alloc, Plan::Stop)?))
}

fn worked_plan(alloc: Global) -> Result<Plan, AllocError> {
    let mut replies = Vec::new(alloc);
    replies.push(Reply {
        card: spade(7),
        plan: then_stop(alloc, 11)?,
    })?;
    replies.push(Reply {
        card: spade(12),
        plan: then_stop(alloc, 13)?,
    })?;
    replies.push(Reply {
        card: spade(14),
        plan: then_stop(alloc, 11)?,
    })?;
    Ok(Plan::Play(spade(2), Box::new(alloc, Plan::Hear(replies))?))
}

#[test]
fn a_plan_is_written_and_read_back(rt: HostRuntime) -> Result<(), Fail> {
    let alloc = rt.alloc();
    let plan = worked_plan(alloc)?.copy(alloc)?;
    let mut out = Text::new(alloc);
    out.push(b"vector 01 count 1\n")?;
    let read = plan_text_reads_back(alloc, &plan, &mut out);
    assert_eq!(rt; out.bytes().len(), 18 + WORKED.len());
    assert_eq!(rt; &out.bytes()[18..], WORKED.as_bytes());
    assert!(rt; read.is_ok());
    if let Ok((again, end)) = read {
        assert_eq!(rt; end, 90);
        let mut lines = Text::new(alloc);
        again.lines(alloc, &mut lines)?;
        assert_eq!(rt; lines.bytes(), WORKED.as_bytes());
    }
    Ok(())
}
