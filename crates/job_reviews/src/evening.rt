//! The games of a deal file as jobs for workers.
ghost use Rattle.std.specs.Prelude.{◌<◌, IfOk};
ghost use Rattle.job_reviews.specs.Evenings.{IsEvening, IsReviewAt};

use crate::game::game_review;
use am_answer::GameFiles;
use job_review::Asked;
use review_text::GameReview;
use shared_table::{Pass, SharedTable};
use std::alloc::{AllocError, Global};
use worker_pool::Work;

/// The games of a deal file with their layout files.
#[derive(Drop)]
pub struct Evening<'a> {
    pub alloc: Global,
    pub files: &'a GameFiles,
    /// What is asked of the review of each.
    pub asked: &'a Asked,
    /// How many games there are.
    pub places: u32,
    /// Workers share one, but no review looks into it: each game has a table of its own, so that it
    /// comes to the same alone and among others.
    pub table: &'a SharedTable,
}

impl Evening<'_> {
    /// What comes of the game at a place, counted from 0.
    pub fn review_at(&self, place: u32) -> Result<GameReview, AllocError>
        requires evening { IsEvening self.now }
        requires place { place < self.now.places }
        ensures { IfOk result (IsReviewAt self.now place) }
    {
        let games = self.files.games();
        let layouts = self.files.layouts();
        let place = place as usize;
        game_review(self.alloc, &games[place], &layouts[place], self.asked)
    }
}

impl Work for Evening<'_> {
    ghost use Rattle.std.specs.Prelude.{⊤};

    type Worker = ();

    type Notes = ();

    type Found = GameReview;

    ghost shared = { λ it. it.table.now };

    ghost sound = { λ it. IsEvening it };

    ghost noted = { λ _ _. ⊤ };

    ghost right = { λ it place review. IsReviewAt it place review };

    fn table(&self) -> &SharedTable {
        self.table
    }

    fn places(&self) -> u32 {
        self.places
    }

    fn start(&self) {}

    fn work_at(
        &self,
        _worker: &mut (),
        _notes: &mut (),
        _pass: &mut Pass,
        place: u32,
    ) -> Result<Option<GameReview>, AllocError> {
        if place < self.places {
            Ok(Some(self.review_at(place)?))
        } else {
            Ok(None)
        }
    }
}
