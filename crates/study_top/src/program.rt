//! The call that the program makes.
ghost use Rattle.std.specs.Prelude.{◌≡◌, ◌≢◌, ◌≤◌, ◌<◌, ◌-◌, ◌^◌, Ok, IfOk, IfErr, IfSome};
ghost use Rattle.std.specs.Prelude.{IsErrOf, List, ℕ, length, option_copied, All};
ghost use Rattle.std.specs.Io.KnownBytes.{append_known};
ghost use Rattle.am_outside.specs.Faults.{Rose};
ghost use Rattle.am_outside.specs.Sink.{AppendsPart};
ghost use Rattle.win_vectors.specs.Weights.{IsWeight};
ghost use Rattle.job_words.specs.Asks.{ask_of, texts_of, IsMoves, IsSearchWithinLimits};
ghost use Rattle.job_words.specs.Asks.{IsWithinLimits};
ghost use Rattle.job_words.specs.declared.study.StudyAsk.TheVariants.{OfFiles};
ghost use Rattle.job_words.specs.declared.asks.Ask.TheVariants.{OnLayouts};
ghost use Rattle.am_answer.specs.declared.status.FileWord.TheVariants.{Deal};
ghost use Rattle.am_answer.specs.Answers.{IsRoot, board_in};
ghost use Rattle.am_answer.specs.Files.{AreWithin, IsJobWithin, limit_of};
ghost use Rattle.am_answer.specs.Lines.{status_line};
ghost use Rattle.am_line.specs.Said.{IsSaid};
ghost use Rattle.study_top.specs.Refusals.{IsRefused, refusal_line, status_of};
ghost use Rattle.study_top.specs.Study.{IsTextOf, IsRefusalOf, IsStudyText, IsStudyUnread};
ghost use Rattle.study_top.specs.Study.{IsStudyRefusal, IsTextOfReport, IsReportRefusal};
ghost use Rattle.study_top.specs.Study.{IsTextOfSearch, IsSearchRefusal, IsTextOfDrawn};
ghost use Rattle.study_top.specs.Study.{IsRefusalOfDrawn, drawn_job, IsAnswerFrom};
ghost use Rattle.study_top.specs.Study.{IsNoAnswerFrom, IsUnreadOf};
ghost use Rattle.study_top.specs.declared.refusal.Refusal.TheVariants.{Ended};

use crate::form::form_of;
use crate::page_cards::cards_for;
use crate::refusal::Refusal;
use crate::solved::solved_report;
use crate::study::read_ask;
use am_answer::{FileWord, Inputs, Root, Status};
use am_inputs::{read_deal, read_file, read_named, read_root};
use am_line::{refuse, refuse_words};
use am_outside::{Shelf, Sink, write_whole};
use byte_text::Text;
use card_brackets::CardTable;
use job_cards::{tell_cards, tell_exact};
use job_draw::draw_file;
use job_lines::tell_lines;
use job_page::tell_page;
use job_review::{Asked, tell_review};
use job_reviews::tell_reviews;
use job_told::tell_report;
use job_words::{Ask, Draw, LayoutsJob, NamedAsk, Search, Study, StudyAsk};
use std::alloc::Global;
use std::thread::Threads;

// The most bytes that a layout file may have.
const MOST_BYTES: usize = 1_048_576;

// What a job tells of a report at the root of a deal, or why there is nothing.
fn text_of(
    alloc: Global,
    study: Study,
    deal: &Text,
    root: &Root,
    report: &Text,
    cards: Option<&CardTable>,
) -> Result<Text, Status>
    requires board { board_in deal.now ≡ Ok root.now.board }
    requires root { IsRoot root.now }
    requires deal_short { length deal.now < 2 ^ 32 - 1 }
    requires report_short { length report.now < 2 ^ 32 - 1 }
    ensures text { IfOk result
        (IsTextOfReport study deal.now root.now report.now (option_copied cards.entry)) }
    ensures refused { IfErr result
        (IsReportRefusal study root.now report.now (option_copied cards.entry)) }
{
    match study {
        Study::Words => tell_report(alloc, root, report),
        Study::Lines => tell_lines(alloc, deal, root, report),
        Study::Page => tell_page(alloc, deal, root, report, cards),
        _ => Err(Status::BadWords),
    }
}

// The same of the report that `solve` gives, which is never refused.
fn text_by_search<R: Threads + Sync>(
    rt: &R,
    alloc: Global,
    study: Study,
    deal: &Text,
    root: &Root,
    moves: u8,
    search: &Search,
) -> Result<Text, Status>
    requires board { board_in deal.now ≡ Ok root.now.board }
    requires root { IsRoot root.now }
    requires weights { All IsWeight root.now.kept.weights }
    requires deal_short { length deal.now < 2 ^ 32 - 1 }
    requires moves { IsMoves moves }
    requires limits { IsSearchWithinLimits search.now }
    ensures text { IfOk result (IsTextOfSearch study deal.now root.now moves search.now) }
    ensures refused { IfErr result (IsSearchRefusal study root.now moves search.now) }
{
    let report = solved_report(rt, alloc, root, moves, search)?;
    let cards = cards_for(alloc, study, root, moves, search)?;
    prove!(root.kept.node.width() > 0);
    text_of(alloc, study, deal, root, &report, cards.as_ref())
}

// What a job tells of a deal and its layouts, or why there is nothing.
fn text_on<R: Threads + Sync>(
    rt: &R,
    alloc: Global,
    study: Study,
    deal: &Text,
    layouts: &Text,
    job: &LayoutsJob<Text>,
) -> Result<Text, Status>
    requires { AreWithin (OnLayouts deal.now layouts.now job.now) }
    ensures text { IfOk result (IsTextOf study (OnLayouts deal.now layouts.now job.now)) }
    ensures refused { IfErr result (IsRefusalOf study (OnLayouts deal.now layouts.now job.now)) }
{
    match (study, job) {
        (_, LayoutsJob::Check { report }) => {
            let root = read_root(alloc, deal, layouts)?;
            text_of(alloc, study, deal, &root, report, None)
        }
        (_, LayoutsJob::Solve { moves, search }) => {
            let root = read_root(alloc, deal, layouts)?;
            text_by_search(rt, alloc, study, deal, &root, *moves, search)
        }
        (Study::Cards { form }, LayoutsJob::Card { moves, search }) => {
            let root = read_root(alloc, deal, layouts)?;
            tell_cards(alloc, &root, *moves, search, form_of(form))
        }
        (Study::ExactCards { form }, LayoutsJob::Card { moves: _, search }) => {
            let root = read_root(alloc, deal, layouts)?;
            tell_exact(alloc, &root, search.nodes, form_of(form))
        }
        (Study::Review { form, from }, LayoutsJob::Card { moves, search }) => {
            let asked = Asked {
                moves: *moves,
                from,
                search: *search,
            };
            let board = read_deal(alloc, deal)?;
            tell_review(alloc, &board, layouts, &asked, form_of(form))
        }
        _ => Err(Status::BadWords),
    }
}

// What a job tells of what was read, or why there is nothing.
fn text_in<R: Threads + Sync>(
    rt: &R,
    alloc: Global,
    study: Study,
    inputs: &Inputs,
) -> Result<Text, Status>
    requires { AreWithin inputs.now }
    ensures text { IfOk result (IsTextOf study inputs.now) }
    ensures refused { IfErr result (IsRefusalOf study inputs.now) }
{
    match (study, inputs) {
        (_, Ask::OnLayouts { deal, layouts, job }) => {
            text_on(rt, alloc, study, deal, layouts, job)
        }
        (
            Study::Review { form, from },
            Ask::Boards {
                games,
                moves,
                search,
            },
        ) => {
            let asked = Asked {
                moves: *moves,
                from,
                search: *search,
            };
            Ok(tell_reviews(rt, alloc, games, &asked, form_of(form))?)
        }
        _ => Err(Status::BadWords),
    }
}

// What is searched for at layouts that are drawn, as a job of `alphamu`.
fn drawn_job(study: Study, moves: u8, search: Search) -> LayoutsJob<Text>
    requires moves { IsMoves moves }
    requires limits { IsSearchWithinLimits search }
    ensures job { result ≡ drawn_job study moves search }
    ensures limits { IsJobWithin result }
{
    match study {
        Study::Words | Study::Lines | Study::Page => LayoutsJob::Solve { moves, search },
        _ => LayoutsJob::Card { moves, search },
    }
}

// What is told of layouts that are drawn.
fn text_of_drawn<R: Threads + Sync>(
    rt: &R,
    alloc: Global,
    study: Study,
    deal: &Text,
    draw: Draw,
    job: &LayoutsJob<Text>,
) -> Result<Text, Refusal>
    requires deal { length deal.now ≤ limit_of Deal }
    requires job { IsJobWithin job.now }
    ensures text { IfOk result (IsTextOfDrawn study deal.now draw job.now) }
    ensures refused { IfErr result (IsRefusalOfDrawn study deal.now draw job.now) }
{
    let layouts = draw_file(alloc, deal, draw)?;
    if layouts.bytes().len() > MOST_BYTES {
        return Err(Refusal::Ended(Status::TooLong(FileWord::Layouts)));
    }
    Ok(text_on(rt, alloc, study, deal, &layouts, job)?)
}

// What is told of files.
fn text_of_files<R: Threads + Sync, S: Shelf>(
    rt: &R,
    alloc: Global,
    shelf: &mut S,
    study: Study,
    reads: NamedAsk<'_>,
) -> Result<Text, Refusal>
    requires { IsWithinLimits (ask_of reads) }
    ensures text { IfSome (S.told shelf.old) (λ files.
        IfOk result (IsAnswerFrom files (OfFiles study (ask_of reads.entry)))) }
    ensures refused { IfSome (S.told shelf.old) (λ files.
        IfErr result (IsNoAnswerFrom files (OfFiles study (ask_of reads.entry)))) }
    ensures not_done { IfErr result IsRefused }
    ensures unread { (file : FileWord) → IsErrOf result (Ended (Status.Unread file))
        → IsUnreadOf (S.told shelf.old) (OfFiles study (ask_of reads.entry))
        (S.faults shelf.old) (S.faults shelf.new) file }
    ensures same_files { S.told shelf.new ≡ S.told shelf.old }
{
    let inputs = read_named(alloc, shelf, reads)?;
    let text = text_in(rt, alloc, study, &inputs)?;
    Ok(text)
}

// What is told of what the words ask for, or why there is nothing.
fn text_for<R: Threads + Sync, S: Shelf>(
    rt: &R,
    alloc: Global,
    words: &[String],
    shelf: &mut S,
) -> Result<Text, Refusal>
    ensures text { IfSome (S.told shelf.old) (λ files.
        IfOk result (IsStudyText (texts_of words.now) files)) }
    ensures refused { IfSome (S.told shelf.old) (λ files.
        IfErr result (IsStudyRefusal (texts_of words.now) files)) }
    ensures not_done { IfErr result IsRefused }
    ensures unread { (file : FileWord) → IsErrOf result (Ended (Status.Unread file))
        → IsStudyUnread (S.told shelf.old) (texts_of words.now)
        (S.faults shelf.old) (S.faults shelf.new) file }
    ensures same_files { S.told shelf.new ≡ S.told shelf.old }
{
    let asked = read_ask(alloc, words)?;
    match asked {
        StudyAsk::OfFiles { study, reads } => text_of_files(rt, alloc, shelf, study, reads),
        StudyAsk::OfDrawn {
            study,
            deal,
            draw,
            moves,
            search,
        } => {
            let deal = read_file(alloc, shelf, FileWord::Deal, deal)?;
            let job = drawn_job(study, moves, search);
            text_of_drawn(rt, alloc, study, &deal, draw, &job)
        }
        StudyAsk::Draw { deal, draw } => {
            let deal = read_file(alloc, shelf, FileWord::Deal, deal)?;
            let text = draw_file(alloc, &deal, draw)?;
            Ok(text)
        }
    }
}

// Says why a study is refused, and gives the status that the program ends with.
fn refuse_study<E: Sink>(words: &[String], refusal: Refusal, err: &mut E) -> Status
    ensures status { result ≡ status_of refusal }
    ensures said { IsSaid (refusal_line (texts_of words.now) refusal)
        (E.told err.old) (E.told err.new) (E.faults err.old) (E.faults err.new) }
{
    match refusal {
        Refusal::Words(bad) => {
            refuse_words(words, &bad, err);
            Status::BadWords
        }
        Refusal::Ended(status) => refuse(status, err),
    }
}

/// Draws layouts, tells the strategies of a report or shows it as a page, puts every legal card side
/// by side, or goes through every decision of a played board. What the words ask for, and which of
/// them aren't understood, is `study_read` of `job_words`. A report that is read is refused as
/// `check` refuses it, and one that is searched for never is. The words don't include the program's
/// name.
///
/// The whole text is made before its first byte is written. The workers are joined, so it may wait.
pub fn run_study<R: Threads + Sync + AllocGlobal, S: Shelf, O: Sink, E: Sink>(
    rt: &R,
    words: &[String],
    shelf: &mut S,
    out: &mut O,
    err: &mut E,
) -> Status
    ensures told { IfSome (S.told shelf.old) (λ files. result ≡ Status.Done
        → (text : List ℕ) × IsStudyText (texts_of words.now) files text
        × (O.told out.new ≡ append_known (O.told out.old) text)) }
    ensures refused { (result ≢ Status.Done) → (result ≢ Status.Unwritten)
        → (refusal : Refusal) × (result ≡ status_of refusal)
        × IfSome (S.told shelf.old) (λ files.
        IsStudyRefusal (texts_of words.now) files refusal)
        × IsSaid (refusal_line (texts_of words.now) refusal)
        (E.told err.old) (E.told err.new) (E.faults err.old) (E.faults err.new) }
    ensures part { IfSome (S.told shelf.old) (λ files. result ≡ Status.Unwritten
        → (text : List ℕ) × IsStudyText (texts_of words.now) files text
        × AppendsPart (O.told out.old) text (O.told out.new)) }
    ensures untouched { (result ≢ Status.Done) → (result ≢ Status.Unwritten) → out.new ≡ out.old }
    ensures unread { (file : FileWord) → result ≡ Status.Unread file
        → IsStudyUnread (S.told shelf.old) (texts_of words.now)
        (S.faults shelf.old) (S.faults shelf.new) file }
    ensures unwritten { result ≡ Status.Unwritten → Rose (O.faults out.old) (O.faults out.new)
        × IsSaid (status_line result) (E.told err.old) (E.told err.new)
        (E.faults err.old) (E.faults err.new) }
    ensures quiet { result ≡ Status.Done → err.new ≡ err.old }
    ensures same_files { S.told shelf.new ≡ S.told shelf.old }
{
    match text_for(rt, rt.alloc(), words, shelf) {
        Ok(text) => match write_whole(out, text.bytes()) {
            Ok(()) => Status::Done,
            Err(_) => refuse(Status::Unwritten, err),
        },
        Err(refusal) => refuse_study(words, refusal, err),
    }
}
