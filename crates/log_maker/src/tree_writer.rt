//! A log under way.
ghost use Rattle.std.specs.Prelude.{◌≤◌, ◌∷◌, [], IsErrOf, OnOk};
ghost use Rattle.log_check.specs.Limits.{most_lines};
ghost use Rattle.log_texts.specs.Written.{IsLongerBy};
ghost use Rattle.log_maker.specs.Steps.{IsSameWriter};

use alphamu_core::SearchFault;
use dd_solver::Solver;
use log_check::LogLine;
use log_texts::LogWriter;
use std::alloc::Global;

/// What the lines of a tree are written with, and how many lines the log may then have.
#[derive(Drop)]
pub struct TreeWriter<'a> {
    pub alloc: Global,
    pub solver: &'a mut Solver,
    pub log: &'a mut LogWriter,
    pub limit: u32,
}

impl TreeWriter<'_> {
    /// Writes a line at the end of the log.
    pub fn push(&mut self, line: &LogLine) -> Result<(), SearchFault>
        requires { self.old.limit ≤ most_lines }
        ensures pushed { OnOk result
            (IsLongerBy (line.now ∷ []) self.old.log.now self.new.log.now) }
        ensures fits { OnOk result (self.new.log.now.count ≤ self.old.limit) }
        ensures spent { IsErrOf result SearchFault.Spent
            → self.old.limit ≤ self.old.log.now.count }
        ensures same { IsSameWriter self.old self.new }
    {
        if self.log.len() >= self.limit {
            return Err(SearchFault::Spent);
        }
        self.log.push(self.alloc, line)?;
        Ok(())
    }
}
