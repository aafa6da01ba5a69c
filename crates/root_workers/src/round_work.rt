//! What the workers of a round do: root cards, and what is known of each.
ghost use Rattle.std.specs.Prelude.{◌≡◌, IfOk, IfSome, Some, slice_get};
ghost use Rattle.trick_rules.specs.Nodes.{choices};
ghost use Rattle.shared_table.specs.Passes.{IsPassOf};
ghost use Rattle.root_workers.specs.Rounds.{IsRound, IsKnownAt, HasSeenMore};
ghost use Rattle.root_workers.specs.Tasks.{IsTask, IsCardSearch, IsKnownBy};

use crate::card_search::search_card;
use crate::rounds::{CardSearch, Help, Round, Task};
use crate::worker_results::Known;
use crate::workers::RootWorker;
use alphamu_core::RaceFault;
use am_outside::Gate;
use card_sets::Card;
use pareto_fronts::Front;
use shared_table::{Pass, SharedTable};
use std::alloc::AllocError;
use trick_rules::Node;
use worker_pool::Work;

/// A task as jobs for this many workers, who pass a gate: the root cards, or for each worker its part in
/// a race or in asking double dummy.
#[derive(Drop)]
pub struct RoundWork<'a, G: Gate> {
    pub task: &'a Task<'a, 'a>,
    pub gate: &'a G,
    pub count: u32,
}

// The root card at a place.
fn card_at(node: &Node, place: u32) -> Option<Card>
    ensures { IfSome result (λ card. slice_get (choices node.now) place ≡ Some card) }
{
    let mut cards = node.choices();
    for earlier in 0..place {
        cards.pop_first()?;
    }
    cards.pop_first()
}

// What a worker's search tells of a card, by what the cards before it win. Nothing, if more that they
// win might make the search shorter. A worker that is late ends its work, as one does that finds no
// memory.
fn known_after(
    round: &Round,
    worker: &mut RootWorker,
    pass: &mut Pass,
    at: &CardSearch,
) -> Result<Option<Known>, AllocError>
    requires round { IsRound round.now }
    requires pass { IsPassOf round.now.table.now pass.old }
    requires at { IsCardSearch round.now at.now }
    ensures known { IfOk result (λ known. IfSome known (IsKnownAt round.now at.now.place)) }
    ensures pass { IsPassOf round.now.table.now pass.new }
    ensures grown { HasSeenMore pass.old pass.new }
{
    let RootWorker { solver, runner, .. } = worker;
    match search_card(round, solver, runner, at.card, at.alpha, pass) {
        Ok(searched) => Ok(Some(Known::of(searched))),
        Err(RaceFault::Spent) if round.rules.bound => Ok(None),
        Err(RaceFault::Spent) => Ok(Some(Known::Spent)),
        Err(RaceFault::Memory | RaceFault::Late) => Err(AllocError),
    }
}

// Asks double dummy about all layouts of a node, from the place on at which the worker begins.
//
// No clause: the solver remembers what it can.
fn ask_layouts(node: &Node, worker: &mut RootWorker) {
    let width = usize::from(node.width());
    let start = worker.runner.begins_at(width);
    for step in 0..width {
        let place = (start.wrapping_add(step) % width) as u16;
        worker.solver.makes(node.position(), node.left(place));
    }
}

impl<G: Gate> Work for RoundWork<'_, G> {
    ghost use Rattle.std.specs.Prelude.{⊤};

    type Worker = RootWorker;

    type Notes = ();

    type Found = Known;

    ghost shared = { λ it. it.task.now.round.now.table.now };

    ghost sound = { λ it. IsTask it.task.now };

    ghost noted = { λ _ _. ⊤ };

    ghost right = { λ it place known. IsKnownBy it.task.now place known };

    fn table(&self) -> &SharedTable {
        self.task.round.table
    }

    fn places(&self) -> u32 {
        match self.task.help {
            Help::Cards => u32::from(self.task.round.node.choices().count()),
            Help::Race(_) | Help::Layouts => self.count,
        }
    }

    fn start(&self) {}

    fn work_at(
        &self,
        worker: &mut RootWorker,
        _notes: &mut (),
        pass: &mut Pass,
        place: u32,
    ) -> Result<Option<Known>, AllocError> {
        let round = self.task.round;
        match &self.task.help {
            Help::Cards => {
                let Some(card) = card_at(round.node, place) else {
                    return Ok(None);
                };
                let alpha = &Front::new(round.alloc, round.node.width());
                let at = CardSearch { place, card, alpha };
                self.gate.enter(worker.number, card);
                let known = known_after(round, worker, pass, &at);
                self.gate.leave(worker.number, card);
                known
            }
            Help::Race(at) => {
                self.gate.enter(worker.number, at.card);
                let known = known_after(round, worker, pass, at);
                self.gate.leave(worker.number, at.card);
                worker.runner.end();
                known
            }
            Help::Layouts => {
                ask_layouts(round.node, worker);
                Ok(None)
            }
        }
    }
}
