//! The reviews of all games, in order, as one text.
ghost use Rattle.std.specs.Prelude.{◌≡◌, ◌<◌, IfOk, length};
ghost use Rattle.job_words.specs.Asks.{IsMoves, IsSearchWithinLimits};
ghost use Rattle.am_answer.specs.Files.{AreGameFiles};
ghost use Rattle.worker_pool.specs.Findings.{AreRight};
ghost use Rattle.job_reviews.specs.Evenings.{IsEvening, IsReviewAt};
ghost use Rattle.job_reviews.specs.Reviews.{pairs_of, AreGameReviews, IsReviewsText};

use crate::evening::Evening;
use am_answer::GameFiles;
use byte_text::Text;
use job_review::Asked;
use review_forms::reviews_in;
use review_text::GameReview;
use shared_table::SharedTable;
use std::alloc::{AllocError, Global};
use std::thread::Threads;
use text_forms::Form;
use worker_pool::{Finding, take_finding, work_side_by_side};

// How many games there are.
fn count_of(files: &GameFiles) -> u32
    requires { AreGameFiles files.now }
    ensures { result ≡ length (pairs_of files.now) }
{
    files.games().len().min(files.layouts().len()) as u32
}

// What a worker found of the game at a place, or else what the caller finds now.
fn found_at(
    evening: &Evening,
    findings: &mut Vec<Finding<GameReview>>,
    place: u32,
) -> Result<GameReview, AllocError>
    requires evening { IsEvening evening.now }
    requires right { AreRight (IsReviewAt evening.now) findings.old.items }
    requires place { place < evening.now.places }
    ensures review { IfOk result (IsReviewAt evening.now place) }
    ensures right { AreRight (IsReviewAt evening.now) findings.new.items }
{
    match take_finding(evening, findings, place) {
        Some(review) => Ok(review),
        None => evening.review_at(place),
    }
}

// What comes of all games, in order.
fn in_order(
    evening: &Evening,
    mut findings: Vec<Finding<GameReview>>,
) -> Result<Vec<GameReview>, AllocError>
    requires evening { IsEvening evening.now }
    requires right { AreRight (IsReviewAt evening.now) findings.items }
    ensures { IfOk result (λ games.
        AreGameReviews evening.now.files.now evening.now.asked.now games.items) }
{
    let mut games = Vec::new(evening.alloc);
    for place in 0..evening.places {
        let review = found_at(evening, &mut findings, place)?;
        games.push(review)?;
    }
    Ok(games)
}

/// The reviews of all games of a deal file, in order, each with its own layout file, in a form. A
/// game that `review` would refuse has a line that says so in its place.
///
/// As many workers as are asked for, but no more than there are games, share the games, and change
/// nothing of the text. Each game has a table of its own. It fails only if an allocation fails. The
/// workers are joined, so it may wait.
pub fn tell_reviews<R: Threads + Sync>(
    rt: &R,
    alloc: Global,
    files: &GameFiles,
    asked: &Asked,
    form: Form,
) -> Result<Text, AllocError>
    requires files { AreGameFiles files.now }
    requires moves { IsMoves asked.now.moves }
    requires limits { IsSearchWithinLimits asked.now.search }
    ensures { IfOk result (IsReviewsText files.now asked.now form) }
{
    let (table, mut pass) = SharedTable::new(alloc, 1, 1)?;
    let evening = Evening {
        alloc,
        files,
        asked,
        places: count_of(files),
        table: &table,
    };
    let count = asked.search.workers.min(evening.places).max(1);
    let mut workers = vec![in alloc; (); count as usize]?;
    let findings = work_side_by_side(rt, alloc, &evening, workers.as_mut_slice(), &mut pass)?;
    let games = in_order(&evening, findings)?;
    reviews_in(alloc, form, asked.moves, &games)
}
