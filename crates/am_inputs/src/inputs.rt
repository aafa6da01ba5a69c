//! The words, and the files that they name.
ghost use Rattle.std.specs.Prelude.{◌≡◌, ◌≢◌, ◌≤◌, ◌⊎◌, ℕ, List, Ok, Err, Some, None, length, IfOk};
ghost use Rattle.std.specs.Prelude.{IfErr, IfSome, IsErrOf, IsSomeAnd};
ghost use Rattle.am_outside.specs.Faults.{Rose};
ghost use Rattle.job_words.specs.declared.asks.Search.{Search};
ghost use Rattle.job_words.specs.declared.asks.Ask.TheVariants.{Made};
ghost use Rattle.job_words.specs.Asks.{ask_of, job_of, texts_of};
ghost use Rattle.job_words.specs.Asks.{IsWithinLimits, IsJobWithinLimits};
ghost use Rattle.job_words.specs.Words.{words_read};
ghost use Rattle.am_answer.specs.Files.{file_read, inputs_read, limit_of, named_read};
ghost use Rattle.am_answer.specs.Files.{file_named, job_read, AreWithin, IsNameOf, IsJobWithin};
ghost use Rattle.am_answer.specs.Files.{is_match_job, asks_match, is_match};
ghost use Rattle.am_answer.specs.Refusals.{IsUnread};
ghost use Rattle.am_answer.specs.Stages.{IsOfFiles, IsOfReading, IsReadRefusal};

use crate::boards::read_game_files;
use am_answer::{FileWord, Inputs, Status};
use am_outside::{Shelf, ShelfFault};
use byte_text::Text;
use job_words::{Ask, LayoutsJob, NamedAsk, read_words};
use std::alloc::Global;

// The most bytes that a file may have.
fn limit_of(file: FileWord) -> u64
    ensures { result ≡ limit_of file }
{
    match file {
        FileWord::Deal | FileWord::Layouts => 1_048_576,
        FileWord::Report | FileWord::Log => 16_777_216,
    }
}

/// The bytes of a file. Errors: `Unread` if it isn't there or reading it fails; `TooLong` if it has
/// more bytes than such a file may have; `Memory`.
#[tactic(auto, unfolding(am_answer::specs::Files::file_read))]
pub fn read_file<S: Shelf>(
    alloc: Global,
    shelf: &mut S,
    file: FileWord,
    name: &str,
) -> Result<Text, Status>
    ensures within { IfOk result (λ text. length text ≤ limit_of file) }
    ensures read { IfSome (S.told shelf.old) (λ files.
        IfOk result (λ text. file_read files file name.now ≡ Ok text)) }
    ensures refused { IfSome (S.told shelf.old) (λ files.
        IfErr result (IsReadRefusal (file_read files file name.now))) }
    ensures only { IfErr result IsOfFiles }
    ensures unread { (other : FileWord) → IsErrOf result (Status.Unread other)
        → (other ≡ file) × Rose (S.faults shelf.old name.now) (S.faults shelf.new name.now) }
    ensures never_falls { (other : List ℕ) → S.faults shelf.old other ≤ S.faults shelf.new other }
    ensures same_files { S.told shelf.new ≡ S.told shelf.old }
{
    match shelf.read(alloc, name, limit_of(file)) {
        Ok(text) => Ok(text),
        Err(ShelfFault::Failed) => Err(Status::Unread(file)),
        Err(ShelfFault::TooLong) => Err(Status::TooLong(file)),
        Err(ShelfFault::Memory) => Err(Status::Memory),
    }
}

// A job on layouts, with the report that it judges and the log that it judges it by.
#[tactic(auto, unfolding(am_answer::specs::Files::job_read))]
fn read_job<S: Shelf>(
    alloc: Global,
    shelf: &mut S,
    job: LayoutsJob<&str>,
) -> Result<LayoutsJob<Text>, Status>
    requires { IsJobWithinLimits (job_of job) }
    ensures within { IfOk result IsJobWithin }
    ensures read { IfSome (S.told shelf.old) (λ files.
        IfOk result (λ read. job_read files (job_of job.entry) ≡ Ok read)) }
    ensures refused { IfSome (S.told shelf.old) (λ files.
        IfErr result (IsReadRefusal (job_read files (job_of job.entry)))) }
    ensures same_job { IfOk result (λ read. is_match_job read ≡ is_match_job (job_of job.entry)) }
    ensures only { IfErr result IsOfFiles }
    ensures unread { (file : FileWord) → IsErrOf result (Status.Unread file)
        → IsSomeAnd (file_named (job_of job.entry) file) (λ name.
        Rose (S.faults shelf.old name) (S.faults shelf.new name)) }
    ensures never_falls { (other : List ℕ) → S.faults shelf.old other ≤ S.faults shelf.new other }
    ensures same_files { S.told shelf.new ≡ S.told shelf.old }
{
    match job {
        LayoutsJob::Solve { moves, search } => Ok(LayoutsJob::Solve { moves, search }),
        LayoutsJob::Card { moves, search } => Ok(LayoutsJob::Card { moves, search }),
        LayoutsJob::Match {
            moves,
            search,
            layout,
            switch,
        } => Ok(LayoutsJob::Match {
            moves,
            search,
            layout,
            switch,
        }),
        LayoutsJob::Fusion => Ok(LayoutsJob::Fusion),
        LayoutsJob::Check { report } => {
            let report = read_file(alloc, shelf, FileWord::Report, report)?;
            Ok(LayoutsJob::Check { report })
        }
        LayoutsJob::Prove { moves, nodes } => Ok(LayoutsJob::Prove { moves, nodes }),
        LayoutsJob::Audit { report, log } => {
            let report = read_file(alloc, shelf, FileWord::Report, report)?;
            let log = read_file(alloc, shelf, FileWord::Log, log)?;
            Ok(LayoutsJob::Audit { report, log })
        }
    }
}

/// Reads the files that a request names: the deal, then the layouts, then the report, then the log;
/// for all games of a deal, after it the layout file of each.
#[tactic(auto, unfolding(am_answer::specs::Files::named_read))]
pub fn read_named<S: Shelf>(
    alloc: Global,
    shelf: &mut S,
    ask: NamedAsk<'_>,
) -> Result<Inputs, Status>
    requires { IsWithinLimits (ask_of ask) }
    ensures within { IfOk result AreWithin }
    ensures read { IfSome (S.told shelf.old) (λ files.
        IfOk result (λ inputs. named_read files (ask_of ask.entry) ≡ Ok inputs)) }
    ensures refused { IfSome (S.told shelf.old) (λ files.
        IfErr result (IsReadRefusal (named_read files (ask_of ask.entry)))) }
    ensures same_job { IfOk result (λ inputs.
        is_match inputs ≡ asks_match (Some (ask_of ask.entry))) }
    ensures only { IfErr result IsOfFiles }
    ensures unread { (file : FileWord) → IsErrOf result (Status.Unread file)
        → (name : List ℕ) × IsNameOf (S.told shelf.old) (ask_of ask.entry) file name
        × Rose (S.faults shelf.old name) (S.faults shelf.new name) }
    ensures made { (number : ℕ) (search : Search) → ask_of ask.entry ≡ Made number search
        → result ≡ Ok (Made number search) }
    ensures same_files { S.told shelf.new ≡ S.told shelf.old }
{
    match ask {
        Ask::OnLayouts { deal, layouts, job } => {
            let deal = read_file(alloc, shelf, FileWord::Deal, deal)?;
            let layouts = read_file(alloc, shelf, FileWord::Layouts, layouts)?;
            let job = read_job(alloc, shelf, job)?;
            Ok(Ask::OnLayouts { deal, layouts, job })
        }
        Ask::List { deal } => {
            let deal = read_file(alloc, shelf, FileWord::Deal, deal)?;
            Ok(Ask::List { deal })
        }
        Ask::Boards {
            games,
            moves,
            search,
        } => {
            let deal = read_file(alloc, shelf, FileWord::Deal, games.deal)?;
            let games = read_game_files(alloc, shelf, games.layouts, &deal)?;
            Ok(Ask::Boards {
                games,
                moves,
                search,
            })
        }
        Ask::Made { number, search } => Ok(Ask::Made { number, search }),
    }
}

// What the words ask for.
fn read_ask(alloc: Global, words: &[String]) -> Result<NamedAsk<'_>, Status>
    ensures ask { IfOk result (λ ask. words_read (texts_of words.now) ≡ Some (ask_of ask)) }
    ensures limits { IfOk result (λ ask. IsWithinLimits (ask_of ask)) }
    ensures refused { IfErr result (λ status. (status ≡ Status.Memory)
        ⊎ ((status ≡ Status.BadWords) × (words_read (texts_of words.now) ≡ None))) }
{
    match read_words(alloc, words)? {
        Some(ask) => Ok(ask),
        None => Err(Status::BadWords),
    }
}

/// Reads the words, then the files that they name: the deal, then the layouts, then the report,
/// then the log. For all games of a deal, the deal file's games come next, and then the layout
/// file of each in order, whose name is that of the words, a full stop and the game's number from
/// 1. The problem of a number needs no file.
#[tactic(auto, unfolding(am_answer::specs::Files::inputs_read))]
pub fn read_inputs<S: Shelf>(
    alloc: Global,
    words: &[String],
    shelf: &mut S,
) -> Result<Inputs, Status>
    ensures asked { IfOk result (λ _. words_read (texts_of words.now) ≢ None) }
    ensures within { IfOk result AreWithin }
    ensures read { IfSome (S.told shelf.old) (λ files.
        IfOk result (λ inputs. inputs_read (texts_of words.now) files ≡ Ok inputs)) }
    ensures refused { IfSome (S.told shelf.old) (λ files.
        IfErr result (IsReadRefusal (inputs_read (texts_of words.now) files))) }
    ensures same_job { IfOk result (λ inputs.
        is_match inputs ≡ asks_match (words_read (texts_of words.now))) }
    ensures bad_words { IsErrOf result Status.BadWords → words_read (texts_of words.now) ≡ None }
    ensures only_bad_words { words_read (texts_of words.now) ≡ None
        → IfErr result (λ status. (status ≡ Status.BadWords) ⊎ (status ≡ Status.Memory)) }
    ensures only { IfErr result IsOfReading }
    ensures unread { (file : FileWord) → IsErrOf result (Status.Unread file)
        → IsUnread (S.told shelf.old) (texts_of words.now) (S.faults shelf.old)
        (S.faults shelf.new) file }
    ensures made { (number : ℕ) (search : Search)
        → words_read (texts_of words.now) ≡ Some (Made number search)
        → (result ≡ Ok (Made number search)) ⊎ (result ≡ Err Status.Memory) }
    ensures same_files { S.told shelf.new ≡ S.told shelf.old }
{
    let ask = read_ask(alloc, words)?;
    read_named(alloc, shelf, ask)
}
