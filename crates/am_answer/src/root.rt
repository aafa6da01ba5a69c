//! What a job on layouts is done at.
use layout_list::Kept;
use pbn_deal::Board;

/// A board, and the layouts that are kept. Declarer's side is to play.
#[derive(Drop)]
pub struct Root {
    pub board: Board,
    pub kept: Kept,
}
