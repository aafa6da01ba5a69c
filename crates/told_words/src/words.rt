//! A told plan in words.
ghost use Rattle.std.specs.Prelude.{◌≡◌, ◌++◌, [], codes, OnOk};
ghost use Rattle.told_plans.specs.Told.{ToldStop, ToldPlay, ToldHear};
ghost use Rattle.told_plans.specs.ToldMeaning.{told_of, branches_of};
ghost use Rattle.told_words.specs.Strategies.{FitsItsNode, layouts_of};
ghost use Rattle.told_words.specs.Numbers.{given_up_text};
ghost use Rattle.told_words.specs.Phrases.{end_text};
ghost use Rattle.told_words.specs.Words.{before, line_end, winner_text, played_text, condition};
ghost use Rattle.told_words.specs.Words.{front_end, steps_text, next_text, branch_lines, told_text};

use crate::layouts::{push_given_up, push_outcome};
use crate::lines::{Line, push_indent, push_winner};
use crate::phrases::{push_end, push_turn};
use crate::steps::{Step, Strategy};
use crate::turns::winner_at;
use byte_text::Text;
use card_sets::{Card, CardSet, Compass, Seat};
use dd_solver::Solver;
use std::alloc::{AllocError, Global};
use std::marker::Model;
use told_layouts::{StepLayouts, layouts_at};
use told_plans::{Branch, ToldPlan};

/// A text under way, with the solver that is asked about its layouts.
#[derive(Debug, Drop)]
pub struct Writer {
    alloc: Global,
    solver: Solver,
    text: Text,
}

impl Model for Writer {
    ghost use Rattle.std.specs.Prelude.{List, ℕ};

    ghost Value = { List ℕ };

    ghost view = { λ writer. writer.text };
}

impl Writer {
    /// A writer of a text that is empty so far.
    pub fn new(alloc: Global) -> Writer
        ensures { result ≡ [] }
    {
        Writer {
            alloc,
            solver: Solver::new(alloc),
            text: Text::new(alloc),
        }
    }

    /// Appends these bytes.
    pub fn push(&mut self, piece: &[u8]) -> Result<(), AllocError>
        ensures { OnOk result (self.new ≡ self.old ++ piece.now) }
    {
        self.text.push(piece)
    }

    /// The text that was written.
    pub fn finish(self) -> Text
        ensures { result ≡ self }
    {
        let Writer {
            alloc: _,
            solver: _,
            text,
        } = self;
        text
    }

    /// Appends a told plan in words, from the strategy's node on, with declarer at this place of
    /// the table. The layouts are numbered from 1 in the node's order.
    pub fn push_told(
        &mut self,
        declarer: Compass,
        strategy: &Strategy,
        told: &ToldPlan,
    ) -> Result<(), AllocError>
        requires { FitsItsNode strategy.now }
        ensures { OnOk result (self.new ≡ self.old ++ told_text declarer
            (layouts_of strategy.now) (told_of told.now) strategy.now.node.now) }
    {
        let step = Step::first(self.alloc, strategy.node)?;
        let line = Line {
            declarer,
            depth: 0,
            begun: false,
        };
        self.push(b"Now")?;
        self.push_front_end(strategy, &step)?;
        self.push_steps(strategy, line, told, &step)
    }

    // The layouts behind a step.
    fn layouts(&mut self, strategy: &Strategy, step: &Step) -> StepLayouts
        requires { FitsItsNode strategy.now }
        ensures layouts { result ≡ layouts_of strategy.now step.now.sets }
        ensures same { self.new ≡ self.old }
    {
        layouts_at(&mut self.solver, strategy.plan, strategy.node, &step.sets)
    }

    // Appends the end of a line's front.
    fn push_front_end(&mut self, strategy: &Strategy, step: &Step) -> Result<(), AllocError>
        requires { FitsItsNode strategy.now }
        ensures { OnOk result (self.new ≡ self.old
            ++ front_end (layouts_of strategy.now) step.now) }
    {
        let layouts = self.layouts(strategy, step);
        push_outcome(&mut self.text, self.alloc, &layouts)?;
        self.push(b":")
    }

    // Appends which layouts the card at a step gives up.
    fn push_given_up_at(&mut self, strategy: &Strategy, step: &Step) -> Result<(), AllocError>
        requires { FitsItsNode strategy.now }
        ensures { OnOk result (self.new ≡ self.old
            ++ given_up_text (layouts_of strategy.now step.now.sets).given_up) }
    {
        let layouts = self.layouts(strategy, step);
        push_given_up(&mut self.text, self.alloc, layouts.given_up)
    }

    // Appends the rest of a line, and the lines below it.
    #[cycle(steps)]
    fn push_steps(
        &mut self,
        strategy: &Strategy,
        line: Line,
        told: &ToldPlan,
        step: &Step,
    ) -> Result<(), AllocError>
        requires { FitsItsNode strategy.now }
        ensures { OnOk result (self.new ≡ self.old
            ++ steps_text (layouts_of strategy.now) (told_of told.now) line step.now) }
    {
        match told {
            ToldPlan::Stop => self.push_stop(line, step),
            ToldPlan::Play(card, rest) => self.push_play(strategy, line, *card, rest, step),
            ToldPlan::Hear(branches) => self.push_hear(strategy, line, branches, step),
        }
    }

    // Appends how a plan stops.
    fn push_stop(&mut self, line: Line, step: &Step) -> Result<(), AllocError>
        ensures { OnOk result (self.new ≡ self.old ++ (before line ++ end_text step.now.places
            ++ codes ".\n")) }
    {
        self.push(line.before())?;
        push_end(&mut self.text, &step.places)?;
        self.push(b".\n")
    }

    // Appends who plays one of the cards.
    fn push_played(&mut self, line: Line, cards: CardSet, step: &Step) -> Result<(), AllocError>
        ensures { OnOk result (self.new ≡ self.old ++ played_text line cards step.now) }
    {
        self.push(line.before())?;
        push_turn(&mut self.text, line.declarer, cards, &step.places)
    }

    // Appends who won the trick, if it is known.
    fn push_winner(&mut self, line: Line, winner: Option<Seat>) -> Result<(), AllocError>
        ensures { OnOk result (self.new ≡ self.old ++ winner_text line winner) }
    {
        push_winner(&mut self.text, line, winner)
    }

    // Appends the end of a line.
    fn end_line(&mut self, line: Line) -> Result<(), AllocError>
        ensures { OnOk result (self.new ≡ self.old ++ line_end line) }
    {
        self.push(line.end())
    }

    // Appends a card of declarer's side, what it gives up, and what follows.
    #[cycle(steps)]
    fn push_play(
        &mut self,
        strategy: &Strategy,
        line: Line,
        card: Card,
        rest: &ToldPlan,
        step: &Step,
    ) -> Result<(), AllocError>
        requires { FitsItsNode strategy.now }
        ensures { OnOk result (self.new ≡ self.old ++ steps_text
            (layouts_of strategy.now) (ToldPlay card (told_of rest.now)) line step.now) }
    {
        let cards = CardSet::empty().with(card);
        self.push_played(line, cards, step)?;
        self.push_given_up_at(strategy, step)?;
        let after = step.after(self.alloc, cards)?;
        self.push_next(strategy, line.going_on(), rest, &after)
    }

    // Appends who won the trick, and what follows.
    #[cycle(steps)]
    fn push_next(
        &mut self,
        strategy: &Strategy,
        line: Line,
        told: &ToldPlan,
        step: &Step,
    ) -> Result<(), AllocError>
        requires { FitsItsNode strategy.now }
        ensures { OnOk result (self.new ≡ self.old ++ next_text
            (steps_text (layouts_of strategy.now) (told_of told.now)) line step.now) }
    {
        let winner = winner_at(&step.places);
        self.push_winner(line, winner)?;
        self.push_steps(strategy, line.after_winner(winner), told, step)
    }

    // Appends what follows on a defender's cards.
    #[cycle(steps)]
    fn push_hear(
        &mut self,
        strategy: &Strategy,
        line: Line,
        branches: &[Branch],
        step: &Step,
    ) -> Result<(), AllocError>
        requires { FitsItsNode strategy.now }
        ensures { OnOk result (self.new ≡ self.old ++ steps_text
            (layouts_of strategy.now) (ToldHear (branches_of branches.now)) line step.now) }
    {
        if branches.len() != 1 {
            self.end_line(line)?;
            return self.push_branches(strategy, line.further_in(), branches, step);
        }
        let cards = branches[0].cards;
        self.push_played(line, cards, step)?;
        let after = step.after(self.alloc, cards)?;
        self.push_next(strategy, line.going_on(), &branches[0].plan, &after)
    }

    // Appends a line for each branch, and the lines below it.
    #[cycle(steps)]
    fn push_branches(
        &mut self,
        strategy: &Strategy,
        line: Line,
        branches: &[Branch],
        step: &Step,
    ) -> Result<(), AllocError>
        requires { FitsItsNode strategy.now }
        ensures { OnOk result (self.new ≡ self.old ++ branch_lines
            (layouts_of strategy.now) (branches_of branches.now) line step.now) }
    {
        for branch in branches {
            let after = step.after(self.alloc, branch.cards)?;
            self.push_condition(line, branch.cards, step)?;
            self.push_front_end(strategy, &after)?;
            self.push_next(strategy, line, &branch.plan, &after)?;
        }
        Ok(())
    }

    // Appends the front of a branch's line.
    fn push_condition(&mut self, line: Line, cards: CardSet, step: &Step) -> Result<(), AllocError>
        ensures { OnOk result (self.new ≡ self.old ++ condition line cards step.now) }
    {
        push_indent(&mut self.text, line.depth)?;
        self.push(b"If ")?;
        push_turn(&mut self.text, line.declarer, cards, &step.places)
    }
}
