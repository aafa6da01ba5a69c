//! The board, the kept layouts and the turn: what the files say, once they are read.
ghost use Rattle.std.specs.Prelude.{◌≡◌, ◌<◌, ◌-◌, ◌^◌, Ok, true, length, IfOk, IfErr};
ghost use Rattle.am_answer.specs.Answers.{board_in, kept_in, has_choice, root_in, root_on, IsRoot};
ghost use Rattle.am_answer.specs.Stages.{IsFileRefusal};

use am_answer::{PbnKind, Root, Status};
use byte_text::Text;
use layout_list::{Kept, layouts};
use pbn_deal::{Board, read_board};
use pbn_text::games;
use std::alloc::Global;
use trick_rules::Node;

/// The board of the first game of a deal file.
#[tactic(auto, unfolding(am_answer::specs::Answers::board_in))]
pub fn read_deal(alloc: Global, deal: &Text) -> Result<Board, Status>
    requires { length deal.now < 2 ^ 32 - 1 }
    ensures board { IfOk result (λ board. board_in deal.now ≡ Ok board) }
    ensures refused { IfErr result (IsFileRefusal (board_in deal.now)) }
{
    let games = games(alloc, deal.bytes())?;
    let Some(game) = games.first() else {
        return Err(Status::BadPbn(1, PbnKind::NoGame));
    };
    Ok(read_board(alloc, game)?)
}

// The layouts of a file that the play of a board allows.
#[tactic(auto, unfolding(am_answer::specs::Answers::kept_in))]
fn read_layouts(alloc: Global, file: &Text, board: &Board) -> Result<Kept, Status>
    requires { length file.now < 2 ^ 32 - 1 }
    ensures kept { IfOk result (λ kept. kept_in file.now board.now ≡ Ok kept) }
    ensures as_many { IfOk result (λ kept. length kept.numbers ≡ length kept.node.lefts) }
    ensures weighed { IfOk result (λ kept. length kept.weights ≡ length kept.node.lefts) }
    ensures refused { IfErr result (IsFileRefusal (kept_in file.now board.now)) }
{
    Ok(layouts(alloc, file.bytes(), board)?)
}

// Whether the play goes on and declarer's side is to play.
fn has_choice(node: &Node) -> bool
    ensures { result ≡ has_choice node.now }
{
    !node.position().over() && node.is_ours()
}

/// Reads the layouts of a board, then whose turn it is.
#[tactic(auto, unfolding(am_answer::specs::Answers::root_on))]
pub(crate) fn root_on(alloc: Global, board: Board, layouts: &Text) -> Result<Root, Status>
    requires { length layouts.now < 2 ^ 32 - 1 }
    ensures root { IfOk result (λ root. root_on board layouts.now ≡ Ok root) }
    ensures is_root { IfOk result IsRoot }
    ensures refused { IfErr result (IsFileRefusal (root_on board layouts.now)) }
{
    let kept = read_layouts(alloc, layouts, &board)?;
    if has_choice(&kept.node) {
        Ok(Root { board, kept })
    } else {
        Err(Status::NoTurn)
    }
}

/// Reads the board, then the layouts, then whose turn it is.
#[tactic(auto, unfolding(am_answer::specs::Answers::root_in))]
pub fn read_root(alloc: Global, deal: &Text, layouts: &Text) -> Result<Root, Status>
    requires deal_within { length deal.now < 2 ^ 32 - 1 }
    requires layouts_within { length layouts.now < 2 ^ 32 - 1 }
    ensures root { IfOk result (λ root. root_in deal.now layouts.now ≡ Ok root) }
    ensures turn { IfOk result (λ root. has_choice root.kept.node ≡ true) }
    ensures as_many { IfOk result (λ root.
        length root.kept.numbers ≡ length root.kept.node.lefts) }
    ensures weighed { IfOk result (λ root.
        length root.kept.weights ≡ length root.kept.node.lefts) }
    ensures refused { IfErr result (IsFileRefusal (root_in deal.now layouts.now)) }
{
    let board = read_deal(alloc, deal)?;
    root_on(alloc, board, layouts)
}
