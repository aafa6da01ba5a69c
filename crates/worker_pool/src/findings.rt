//! What workers found.
ghost use Rattle.std.specs.Prelude.{◌≡◌, ◌<◌, IfSome, length, slice_index_or};
ghost use Rattle.worker_pool.specs.Findings.{AreRight};
ghost use Rattle.worker_pool.specs.declared.findings.Finding.{Finding};

use crate::work::Work;

/// A job by its place, counted from 0, and what was found by it.
#[derive(Drop)]
pub struct Finding<F> {
    pub place: u32,
    pub found: F,
}

// The index of the finding of a place.
fn index_of<F>(findings: &Vec<Finding<F>>, place: u32) -> Option<usize>
    ensures { IfSome result (λ index. (index < length findings.now.items)
        × ((d : Finding F) → (slice_index_or findings.now.items index d).place ≡ place)) }
{
    for index in 0..findings.len() {
        if findings[index].place == place {
            return Some(index);
        }
    }
    None
}

/// Takes out what was found by the job at a place.
pub fn take_finding<W: Work>(
    work: &W,
    findings: &mut Vec<Finding<W::Found>>,
    place: u32,
) -> Option<W::Found>
    requires { AreRight (W.right work.now) findings.old.items }
    ensures right { AreRight (W.right work.now) findings.new.items }
    ensures found { IfSome result (W.right work.now place) }
{
    let index = index_of(findings, place)?;
    let Finding { place: _, found } = findings.remove(index);
    Some(found)
}
