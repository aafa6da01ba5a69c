//! The call that the program makes.
ghost use Rattle.std.specs.Prelude.{◌≡◌, ◌≢◌, ◌≤◌, ◌⊎◌, ℕ, false, length, map, Ok, None, Some, IfOk, IfErr, IfSome};
ghost use Rattle.std.specs.Prelude.{IsErrOf};
ghost use Rattle.std.specs.Io.KnownBytes.{append_known};
ghost use Rattle.am_outside.specs.Faults.{Rose};
ghost use Rattle.am_outside.specs.Sink.{AppendsPart};
ghost use Rattle.job_words.specs.declared.asks.Search.{Search};
ghost use Rattle.job_words.specs.declared.asks.Ask.TheVariants.{Made};
ghost use Rattle.job_words.specs.Asks.{AskValue, texts_of};
ghost use Rattle.job_words.specs.Words.{words_read};
ghost use Rattle.am_answer.specs.Answers.{answer, made_in};
ghost use Rattle.am_answer.specs.Tasks.{TaskValue};
ghost use Rattle.am_answer.specs.Files.{asks_match};
ghost use Rattle.am_answer.specs.Stages.{IsRefusal, IsTaskRefusal, IsTextForAt};
ghost use Rattle.am_match.specs.Defences.{sitter};
ghost use Rattle.am_answer.specs.Lines.{status_line};
ghost use Rattle.am_line.specs.Said.{IsSaid};
ghost use Rattle.am_answer.specs.Refusals.{IsUnread};
ghost use Rattle.am_answer.specs.Endings.{IsStatusFor, IsReported, IsReportedInPart, HasText};
ghost use Rattle.am_answer.specs.Endings.{IsDoneOrMemory, IsKeptInFront, IsMadeRun, HasNoFault};

use crate::jobs::text_in;
use am_answer::{FileWord, Status};
use am_inputs::read_inputs;
use am_line::refuse;
use am_match::Defender;
use am_outside::{Gate, Shelf, Sink, write_whole};
use byte_text::Text;
use std::alloc::Global;
use std::thread::Threads;

// The whole text of the job, or why there is none.
fn text_for<R: Threads + Sync, S: Shelf, G: Gate>(
    rt: &R,
    alloc: Global,
    words: &[String],
    shelf: &mut S,
    gate: &G,
    table: &mut Vec<Box<dyn Defender>>,
) -> Result<Text, Status>
    requires seats { length table.old.items ≡ 3 }
    ensures text { IfSome (S.told shelf.old) (λ files.
        IfOk result (IsTextForAt (answer (texts_of words.now) files)
        (map (λ d. sitter (style d) (heard d)) table.old.items)
        (map (λ d. sitter (style d) (heard d)) table.new.items))) }
    ensures refused { IfSome (S.told shelf.old) (λ files.
        IfErr result (IsRefusal (answer (texts_of words.now) files))) }
    ensures bad_words { IsErrOf result Status.BadWords → words_read (texts_of words.now) ≡ None }
    ensures only_bad_words { words_read (texts_of words.now) ≡ None
        → IfErr result (λ status. (status ≡ Status.BadWords) ⊎ (status ≡ Status.Memory)) }
    ensures asked { IfOk result (λ _. words_read (texts_of words.now) ≢ None) }
    ensures unread { (file : FileWord) → IsErrOf result (Status.Unread file)
        → IsUnread (S.told shelf.old) (texts_of words.now) (S.faults shelf.old)
        (S.faults shelf.new) file }
    ensures nothing_written { IfErr result (λ status.
        (status ≢ Status.Done) × (status ≢ Status.Unwritten)) }
    ensures made_text { (number : ℕ) (search : Search)
        → words_read (texts_of words.now) ≡ Some (Made number search)
        → IfOk result (IsTextForAt (made_in number search)
        (map (λ d. sitter (style d) (heard d)) table.old.items)
        (map (λ d. sitter (style d) (heard d)) table.new.items)) }
    ensures made_refused { (number : ℕ) (search : Search)
        → words_read (texts_of words.now) ≡ Some (Made number search)
        → IfErr result (IsTaskRefusal (made_in number search)) }
    ensures same_files { S.told shelf.new ≡ S.told shelf.old }
    ensures others { asks_match (words_read (texts_of words.now)) ≡ false
        → table.new ≡ table.old }
    ensures untouched { IfErr result (λ status.
        status ≢ Status.Memory → table.new ≡ table.old) }
{
    match read_inputs(alloc, words, shelf) {
        Ok(inputs) => text_in(rt, alloc, &inputs, gate, table),
        Err(status) => Err(status),
    }
}

// Writes a text whole, or says that it can't be written.
fn deliver<O: Sink, E: Sink>(text: &Text, out: &mut O, err: &mut E) -> Status
    ensures ends { (result ≡ Status.Done) ⊎ (result ≡ Status.Unwritten) }
    ensures whole { result ≡ Status.Done → O.told out.new ≡ append_known (O.told out.old) text.now }
    ensures part { result ≡ Status.Unwritten
        → AppendsPart (O.told out.old) text.now (O.told out.new) }
    ensures failed { result ≡ Status.Unwritten → Rose (O.faults out.old) (O.faults out.new) }
    ensures quiet { result ≡ Status.Done → err.new ≡ err.old }
    ensures said { result ≡ Status.Unwritten
        → IsSaid (status_line result) (E.told err.old) (E.told err.new)
        (E.faults err.old) (E.faults err.new) }
{
    match write_whole(out, text.bytes()) {
        Ok(()) => Status::Done,
        Err(_) => refuse(Status::Unwritten, err),
    }
}

/// Does what the words ask for: reads the files that they name, and writes the text of the job to
/// `out`, or a line that says why not to `err`. The words don't include the program's name.
///
/// The whole text is made before its first byte is written. The first refusal ends the run, in the
/// order: words, the deal file, the layout file, the report, the log, the board, the layouts, whose
/// turn it is, the report's grammar, the log's grammar, the work of the job, the output. A step
/// that the job doesn't need is left out.
///
/// If all games of a deal file are solved, its games come before the layout files, which are read
/// in the order of the games. A game's board, layouts and turn then refuse that game alone, on a
/// line of the text.
///
/// A match is played at the table of three defenders: the first sits at Left, the second at Right,
/// and with `--switch` the third takes over Left's seat before the card of that number. Each
/// defender who sits hears the cards. No other job touches the table, and neither does a match that
/// is refused, unless an allocation fails.
///
/// Each search of a root card comes between the gate's `enter` and `leave`. Neither the gate nor
/// the number of workers changes a byte. The workers are joined, so it may wait.
pub fn run<R: Threads + Sync, S: Shelf, O: Sink, E: Sink, G: Gate>(
    rt: &R,
    alloc: Global,
    words: &[String],
    shelf: &mut S,
    out: &mut O,
    err: &mut E,
    gate: &G,
    table: &mut Vec<Box<dyn Defender>>,
) -> Status
    requires seats { length table.old.items ≡ 3 }

    // The bytes written are the text that the definitions give for the files read and the table,
    // and so is the status.
    ensures report { IfSome (S.told shelf.old) (λ files. result ≡ Status.Done
        → IsReported (answer (texts_of words.now) files)
        (map (λ d. sitter (style d) (heard d)) table.old.items)
        (map (λ d. sitter (style d) (heard d)) table.new.items)
        (O.told out.old) (O.told out.new)) }
    ensures status { IfSome (S.told shelf.old) (λ files.
        IsStatusFor (answer (texts_of words.now) files) result) }
    ensures complete { IfSome (S.told shelf.old) (λ files. (ask : AskValue) (task : TaskValue)
        → words_read (texts_of words.now) ≡ Some ask → answer (texts_of words.now) files ≡ Ok task
        → HasText task → HasNoFault (Some files) ask (S.faults shelf.old) (S.faults shelf.new)
        → ¬ (Rose (O.faults out.old) (O.faults out.new)) → IsDoneOrMemory result) }

    // The problem of a number needs no file: what is said of it holds over every shelf.
    ensures made_report { (number : ℕ) (search : Search)
        → words_read (texts_of words.now) ≡ Some (Made number search) → result ≡ Status.Done
        → IsReported (made_in number search)
        (map (λ d. sitter (style d) (heard d)) table.old.items)
        (map (λ d. sitter (style d) (heard d)) table.new.items)
        (O.told out.old) (O.told out.new) }
    ensures made_status { (number : ℕ) (search : Search)
        → words_read (texts_of words.now) ≡ Some (Made number search)
        → IsMadeRun number search result }
    ensures made_complete { (number : ℕ) (search : Search) (task : TaskValue)
        → words_read (texts_of words.now) ≡ Some (Made number search)
        → made_in number search ≡ Ok task → HasText task
        → ¬ (Rose (O.faults out.old) (O.faults out.new)) → IsDoneOrMemory result }

    // What shows each cause.
    ensures bad_words { result ≡ Status.BadWords → words_read (texts_of words.now) ≡ None }
    ensures only_bad_words { words_read (texts_of words.now) ≡ None
        → (result ≡ Status.BadWords) ⊎ (result ≡ Status.Memory) }
    ensures unread { (file : FileWord) → result ≡ Status.Unread file
        → IsUnread (S.told shelf.old) (texts_of words.now) (S.faults shelf.old)
        (S.faults shelf.new) file }
    ensures unwritten { result ≡ Status.Unwritten → Rose (O.faults out.old) (O.faults out.new) }

    // What was written before stays in front of what is written.
    ensures in_front { IsKeptInFront (O.told out.old) (O.told out.new) }

    // What a refused run has written.
    ensures untouched { (result ≢ Status.Done) → (result ≢ Status.Unwritten) → out.new ≡ out.old }
    ensures part { IfSome (S.told shelf.old) (λ files. result ≡ Status.Unwritten
        → IsReportedInPart (answer (texts_of words.now) files)
        (map (λ d. sitter (style d) (heard d)) table.old.items)
        (map (λ d. sitter (style d) (heard d)) table.new.items)
        (O.told out.old) (O.told out.new)) }
    ensures quiet { result ≡ Status.Done → err.new ≡ err.old }
    ensures said { (result ≢ Status.Done)
        → IsSaid (status_line result) (E.told err.old) (E.told err.new)
        (E.faults err.old) (E.faults err.new) }

    ensures same_files { S.told shelf.new ≡ S.told shelf.old }

    // Who isn't asked to play.
    ensures others { asks_match (words_read (texts_of words.now)) ≡ false
        → table.new ≡ table.old }
    ensures untouched_table { (result ≢ Status.Done) → (result ≢ Status.Unwritten)
        → (result ≢ Status.Memory) → table.new ≡ table.old }
{
    match text_for(rt, alloc, words, shelf, gate, table) {
        Ok(text) => deliver(&text, out, err),
        Err(status) => refuse(status, err),
    }
}
