//! The cards that a page shows beside a report that is searched for.
ghost use Rattle.std.specs.Prelude.{◌≡◌, IfOk, IfErr};
ghost use Rattle.job_words.specs.Asks.{IsMoves, IsSearchWithinLimits};
ghost use Rattle.am_answer.specs.Answers.{IsRoot};
ghost use Rattle.page_text.specs.Verdicts.{plans_all};
ghost use Rattle.study_top.specs.Study.{IsPageTable, IsPageTableRefusal, AreCardsFor};
ghost use Rattle.study_top.specs.Study.{AreCardsRefused, table_moves as moves_of};

use am_answer::{Root, Status};
use card_brackets::CardTable;
use job_cards::{cards_of, exact_cards_of};
use job_words::{Search, Study};
use page_text::plans_all;
use std::alloc::Global;

// How many moves a page plans to judge each card, if it doesn't plan all. With many layouts the
// bounds of a card take minutes, and a page is not worth so long a wait.
fn table_moves(root: &Root, moves: u8) -> u8
    requires { IsMoves moves }
    ensures value { result ≡ moves_of root.now moves }
    ensures moves { IsMoves result }
{
    if root.kept.node.width() > 40 {
        1
    } else if moves <= 4 {
        moves
    } else {
        4
    }
}

// Whether a page plans every card that declarer's side has left.
fn plans_every_card(root: &Root, moves: u8) -> bool
    ensures { result ≡ plans_all root.now.kept.node.position moves }
{
    plans_all(root.kept.node.position(), moves)
}

// Every legal card of a root as a page shows it, if it plans all or not.
fn page_table(
    alloc: Global,
    all: bool,
    root: &Root,
    moves: u8,
    search: &Search,
) -> Result<CardTable, Status>
    requires root { IsRoot root.now }
    requires moves { IsMoves moves }
    requires limits { IsSearchWithinLimits search.now }
    ensures table { IfOk result (IsPageTable all root.now moves search.now) }
    ensures refused { IfErr result (IsPageTableRefusal all root.now moves search.now) }
{
    match all {
        true => exact_cards_of(alloc, root, moves, search.nodes),
        false => cards_of(alloc, root, table_moves(root, moves), search),
    }
}

/// Every legal card of a root, if the job shows them.
pub(crate) fn cards_for(
    alloc: Global,
    study: Study,
    root: &Root,
    moves: u8,
    search: &Search,
) -> Result<Option<CardTable>, Status>
    requires root { IsRoot root.now }
    requires moves { IsMoves moves }
    requires limits { IsSearchWithinLimits search.now }
    ensures cards { IfOk result (AreCardsFor study root.now moves search.now) }
    ensures refused { IfErr result (AreCardsRefused study root.now moves search.now) }
{
    match study {
        Study::Page => {
            let all = plans_every_card(root, moves);
            let table = page_table(alloc, all, root, moves, search)?;
            Ok(Some(table))
        }
        _ => Ok(None),
    }
}
