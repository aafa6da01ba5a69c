//! Runs over files and sinks in memory, and a small ending for them.
use am_match::{Defender, HighCard, LowCard};
use am_outside::{Gate, MemoryShelf, MemorySink, OpenGate};
use am_top::{Status, run};
use std::alloc::{AllocError, Global};
use std::thread::Threads;

/// Two spades opposite king and jack, with one of two tricks needed and North, dummy, to lead.
pub const QUEEN: &str =
    "[Deal \"N:32... - KJ... -\"]\n[Declarer \"S\"]\n[Contract \"1NT\"]\n[EndNeed \"1\"]\n[EndLead \"N\"]\n";

/// East has ace and seven, or queen and seven.
pub const QUEEN_LAYOUTS: &str = "N:32... A7... KJ... Q5...\nN:32... Q7... KJ... A5...\n";

/// The report of two moves on these layouts.
pub const QUEEN_REPORT: &str =
    "alphamu report 1\ndeclarer S\ntrump NT\nneed 1\nhand S KJ...\nhand N 32...\ntrick N -\nturn N\nmoves 2\nkept 1 2\nfront 2\nvector 10 count 1\nplay S2\nhear 3\non S7\nplay SK\nstop\non SQ\nplay SK\nstop\non SA\nplay SJ\nstop\nvector 01 count 1\nplay S2\nhear 3\non S7\nplay SJ\nstop\non SQ\nplay SK\nstop\non SA\nplay SJ\nstop\ncard S2 count 1\nend\n";

/// A run of words, which are separated by single spaces.
#[derive(Drop)]
pub struct Run {
    pub status: Status,
    pub out: MemorySink,
    pub err: MemorySink,
}

impl Run {
    /// Whether the run ended so, with these texts written.
    /// No clause: the tests compare it with values from outside.
    pub fn ends_with(&self, status: Status, out: &str, err: &str) -> bool {
        self.status == status
            && self.out.bytes() == out.as_bytes()
            && self.err.bytes() == err.as_bytes()
    }
}

/// A deal file and a layout file.
/// No clause, as at `Run::ends_with`.
pub fn shelf_of(alloc: Global, deal: &str, layouts: &str) -> Result<MemoryShelf, AllocError> {
    let mut shelf = MemoryShelf::new(alloc);
    shelf.add("deal", deal.as_bytes())?;
    shelf.add("layouts", layouts.as_bytes())?;
    Ok(shelf)
}

/// Words that are separated by single spaces.
/// No clause, as at `Run::ends_with`.
pub fn words_of(alloc: Global, text: &str) -> Result<Vec<String>, AllocError> {
    let mut words = Vec::new(alloc);
    for word in text.split(' ') {
        words.push(String::from_str(alloc, word)?)?;
    }
    Ok(words)
}

/// A run of these words over two files.
/// No clause, as at `Run::ends_with`.
pub fn ran<R: Threads + Sync>(
    rt: &R,
    alloc: Global,
    text: &str,
    deal: &str,
    layouts: &str,
) -> Result<Run, AllocError> {
    let mut shelf = shelf_of(alloc, deal, layouts)?;
    ran_at(rt, alloc, text, &mut shelf, &OpenGate)
}

/// The same over a shelf, at a gate.
/// No clause, as at `Run::ends_with`.
pub fn ran_at<R: Threads + Sync, G: Gate>(
    rt: &R,
    alloc: Global,
    text: &str,
    shelf: &mut MemoryShelf,
    gate: &G,
) -> Result<Run, AllocError> {
    let words = words_of(alloc, text)?;
    let mut sinks = Sinks::new(alloc)?;
    let status = ended(rt, alloc, &words, shelf, &mut sinks, gate)?;
    let Sinks { out, err } = sinks;
    Ok(Run { status, out, err })
}

/// The two streams of a run: one for its output and one for its error line.
#[derive(Drop)]
pub struct Sinks {
    pub out: MemorySink,
    pub err: MemorySink,
}

impl Sinks {
    /// Ample room for output, and for an error line.
    /// No clause, as at `Run::ends_with`.
    pub fn new(alloc: Global) -> Result<Sinks, AllocError> {
        Ok(Sinks {
            out: MemorySink::new(alloc, 10_000, 0)?,
            err: MemorySink::new(alloc, 100, 0)?,
        })
    }
}

/// How the words end, with three defenders at the table.
/// No clause, as at `Run::ends_with`.
pub fn ended<R: Threads + Sync, G: Gate>(
    rt: &R,
    alloc: Global,
    words: &[String],
    shelf: &mut MemoryShelf,
    sinks: &mut Sinks,
    gate: &G,
) -> Result<Status, AllocError> {
    let mut table: Vec<Box<dyn Defender>> = Vec::new(alloc);
    table.push(Box::new(alloc, LowCard::new())?)?;
    table.push(Box::new(alloc, LowCard::new())?)?;
    table.push(Box::new(alloc, HighCard::new())?)?;
    let out = &mut sinks.out;
    let err = &mut sinks.err;
    Ok(run(rt, alloc, words, shelf, out, err, gate, &mut table))
}
