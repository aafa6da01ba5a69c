//! The parts of what is asked: how to search, the bytes of a file, and the root of two files.
ghost use Rattle.std.specs.Prelude.{◌≡◌, ◌≤◌, true, length, IfOk, IfErr, Some, Ok, Err};
ghost use Rattle.job_words.specs.Asks.{IsMoves, IsSearchWithinLimits};
ghost use Rattle.am_answer.specs.Answers.{has_choice};
ghost use Rattle.am_answer.specs.Files.{limit_of, within_limit};
ghost use Rattle.library_text.specs.Requests.{root_within, search_by, IsFileFault};

use am_answer::{FileWord, Root, Status};
use am_inputs::read_root;
use byte_text::Text;
use job_words::Search;
use std::alloc::Global;
use trick_rules::MOST_MOVES;

/// How the caller alone searches by these moves and nodes, if they are allowed.
pub fn search_by(moves: u32, nodes: u64) -> Result<(u8, Search), Status>
    ensures found { IfOk result
        (λ found. (found.0 ≡ moves) × (search_by moves nodes ≡ Ok found.1)) }
    ensures moves { IfOk result (λ found. IsMoves found.0) }
    ensures limits { IfOk result (λ found. IsSearchWithinLimits found.1) }
    ensures refused { IfErr result (λ status. (status ≡ Status.BadWords)
        × (search_by moves nodes ≡ Err Status.BadWords)) }
{
    if moves == 0 || moves > u32::from(MOST_MOVES) || nodes == 0 {
        return Err(Status::BadWords);
    }
    let search = Search {
        nodes,
        workers: 1,
        shards: 16,
        room: 16_384,
        table: true,
        cuts: true,
    };
    Ok((moves as u8, search))
}

// The most bytes that a file may have.
fn limit_of(file: FileWord) -> u64
    ensures { result ≡ limit_of file }
{
    match file {
        FileWord::Deal | FileWord::Layouts => 1_048_576,
        FileWord::Report | FileWord::Log => 16_777_216,
    }
}

/// The bytes of a file as a text, unless there are more than it may have.
pub fn file_text(alloc: Global, file: FileWord, bytes: &[u8]) -> Result<Text, Status>
    ensures text { IfOk result (λ text. within_limit file (Some bytes.now) ≡ Ok text) }
    ensures within { IfOk result (λ text. length text ≤ limit_of file) }
    ensures refused { IfErr result (IsFileFault (within_limit file (Some bytes.now))) }
{
    if bytes.len() as u64 > limit_of(file) {
        return Err(Status::TooLong(file));
    }
    Ok(Text::from_bytes(alloc, bytes)?)
}

/// The root of a deal and its layouts.
#[tactic(auto, unfolding(crate::specs::Requests::root_within))]
pub fn root_of(alloc: Global, deal: &[u8], layouts: &[u8]) -> Result<Root, Status>
    ensures root { IfOk result (λ root. root_within deal.now layouts.now ≡ Ok root) }
    ensures turn { IfOk result (λ root. has_choice root.kept.node ≡ true) }
    ensures weighed { IfOk result (λ root.
        length root.kept.weights ≡ length root.kept.node.lefts) }
    ensures refused { IfErr result (IsFileFault (root_within deal.now layouts.now)) }
{
    let deal = file_text(alloc, FileWord::Deal, deal)?;
    let layouts = file_text(alloc, FileWord::Layouts, layouts)?;
    read_root(alloc, &deal, &layouts)
}
