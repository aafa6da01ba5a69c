//! What there is to do for workers.
use shared_table::{Pass, SharedTable};
use std::alloc::AllocError;

/// Jobs by their places in a list, counted from 0. Which worker does which job changes no answer.
pub trait Work: Sync {
    ghost use Rattle.std.specs.Prelude.{◌≡◌, ℕ, IfOk, IfSome};
    ghost use Rattle.shared_table.specs.declared.SharedTable.{SharedTable};
    ghost use Rattle.shared_table.specs.Passes.{IsPassOf, view_of};
    ghost use Rattle.shared_table.specs.Stores.{HasGrownAt};

    /// What a worker brings along, for example its number.
    type Worker: Send;

    /// What a worker keeps from one job to its next.
    type Notes: Send + Drop;

    /// What a worker finds by a job.
    type Found: Send + Drop;

    /// The table of the workers.
    ghost shared: { Self → SharedTable };

    /// The jobs can be done.
    ghost sound: { Self → Type 0 };

    /// A worker's notes are true.
    ghost noted: { Self → Self.Notes → Type 0 };

    /// This is what the job at a place wants to be found.
    ghost right: { Self → ℕ → Self.Found → Type 0 };

    /// The table of the workers.
    fn table(&self) -> &SharedTable
        ensures { result.now ≡ shared self.now };

    /// How many places the list has.
    fn places(&self) -> u32;

    /// The notes of a worker that has done no job.
    fn start(&self) -> Self::Notes
        requires { sound self.now }
        ensures { noted self.now result };

    /// What a worker finds by the job at a place; nothing, if the job isn't for the workers.
    fn work_at(
        &self,
        worker: &mut Self::Worker,
        notes: &mut Self::Notes,
        pass: &mut Pass,
        place: u32,
    ) -> Result<Option<Self::Found>, AllocError>
        requires sound { sound self.now }
        requires notes { noted self.now notes.old }
        requires pass { IsPassOf (shared self.now) pass.old }
        ensures found { IfOk result (λ found. IfSome found (right self.now place)) }
        ensures notes { noted self.now notes.new }
        ensures pass { IsPassOf (shared self.now) pass.new }
        ensures grown { (i : ℕ) → HasGrownAt i (view_of pass.old) (view_of pass.new) };
}
