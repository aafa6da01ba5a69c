//! The later lines of a report, compared with the first.
ghost use Rattle.std.specs.Prelude.{◌≡◌, All, IfOk};
ghost use Rattle.line_partings.specs.Partings.{FitOneNode, IsWhereTheyPart};
ghost use Rattle.page_report.specs.BesideLines.{FitTogether, BesideFrom, AreBeside};

use am_report::ReadEntry;
use line_partings::first_parting;
use page_text::Beside;
use std::alloc::{AllocError, Global};

// The most lines that are compared with the first.
const MOST_BESIDES: usize = 5;

// A later strategy by its number, compared with the first.
fn beside_of(
    alloc: Global,
    number: u64,
    first: &ReadEntry,
    read: &ReadEntry,
) -> Result<Beside, AllocError>
    requires { FitOneNode first.now.entry.plan read.now.entry.plan }
    ensures number { IfOk result (λ beside. beside.number ≡ number) }
    ensures parting { IfOk result
        (λ beside. IsWhereTheyPart first.now.entry.plan read.now.entry.plan beside.parting) }
{
    let parting = first_parting(alloc, &first.entry.plan, &read.entry.plan)?;
    Ok(Beside { number, parting })
}

// The later strategies compared with the first, numbered from 2.
fn each_beside(
    alloc: Global,
    first: &ReadEntry,
    later: &[ReadEntry],
) -> Result<Vec<Beside>, AllocError>
    requires { All (λ read. FitOneNode first.now.entry.plan read.entry.plan) later.now }
    ensures { IfOk result
        (λ besides. BesideFrom first.now.entry.plan 2 later.now besides.items) }
{
    let mut besides = Vec::new(alloc);
    for (place, read) in later.iter().enumerate() {
        let beside = beside_of(alloc, place as u64 + 2, first, read)?;
        besides.push(beside)?;
    }
    Ok(besides)
}

/// Where the first strategy and each of the next five part.
pub fn besides_of(alloc: Global, entries: &[ReadEntry]) -> Result<Vec<Beside>, AllocError>
    requires { FitTogether entries.now }
    ensures { IfOk result (λ besides. AreBeside entries.now besides.items) }
{
    let Some((first, later)) = entries.split_first() else {
        return Ok(Vec::new(alloc));
    };
    let few = MOST_BESIDES.min(later.len());
    each_beside(alloc, first, &later[..few])
}
