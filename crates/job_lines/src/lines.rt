//! A report that is judged, and then played out.
ghost use Rattle.std.specs.Prelude.{◌≡◌, ◌<◌, ◌≤◌, ◌-◌, ◌^◌, ℕ, All, Some, Ok, length, slice_get, IfOk, IfErr};
ghost use Rattle.trick_rules.specs.Positions.{State};
ghost use Rattle.trick_rules.specs.Nodes.{states};
ghost use Rattle.strategy_games.specs.Plans.{Fits, wins};
ghost use Rattle.strategy_tree.specs.Bridge.{bridge};
ghost use Rattle.pbn_text.specs.Grammar.{games_read};
ghost use Rattle.line_plays.specs.Defended.{PlaysOut};
ghost use Rattle.job_words.specs.declared.asks.LayoutsJob.TheVariants as jobs;
ghost use Rattle.am_answer.specs.Answers.{board_in, task_at};
ghost use Rattle.am_answer.specs.Stages.{IsFileRefusal};
ghost use Rattle.job_lines.specs.LinesJob.{AreTexts, shown_at as shown_in, IsGameAt, AreGames};
ghost use Rattle.job_lines.specs.LinesJob.{AreLines, IsLinesReport};

use am_answer::{PbnKind, Root, Status};
use am_report::ReadEntry;
use byte_text::Text;
use card_sets::Seat;
use dd_solver::Solver;
use job_told::good_report;
use line_plays::{PlayOut, play_against_best_defence};
use pbn_games::{Shown, all_cards, dealt_hand, game_text};
use pbn_text::{Game, games};
use std::alloc::{AllocError, Global};
use trick_rules::Node;

// A strategy of a report, played out in the layout of a place.
fn play_at(solver: &mut Solver, read: &ReadEntry, node: &Node, place: u16) -> PlayOut
    requires a_layout { place < length node.now.lefts }
    requires fits { (moves : ℕ) × Fits bridge read.now.entry.plan node.now moves }
    ensures cards { (s : State) → slice_get (states node.now) place ≡ Some s
        → PlaysOut read.now.entry.plan s result.cards }
    ensures made { (s : State) → slice_get (states node.now) place ≡ Some s
        → result.made ≡ wins bridge read.now.entry.plan s }
{
    play_against_best_defence(solver, &read.entry.plan, node.position(), node.left(place))
}

// The strategies of a report at a root, to be written as games with the tags of a game.
#[derive(Drop)]
struct Lines<'a> {
    alloc: Global,
    game: &'a Game,
    root: &'a Root,
    entries: &'a [ReadEntry],
}

impl Lines<'_> {
    // What is shown of the strategy of a place in the layout of a place.
    fn shown_at(&self, line: usize, place: u16, made: bool) -> Shown
        requires lines { AreLines self.now.root.now self.now.entries.now }
        requires a_line { line < length self.now.entries.now }
        requires a_layout { place < length self.now.root.now.kept.node.lefts }
        ensures { (number : ℕ) (s : State)
            → slice_get self.now.root.now.kept.numbers place ≡ Some number
            → slice_get (states self.now.root.now.kept.node) place ≡ Some s
            → result ≡ shown_in self.now.root.now (length self.now.entries.now)
            line place made number s }
    {
        let root = self.root;
        let node = &root.kept.node;
        let plays = root.board.plays();
        let left = node.left(place);
        let right = node.position().hand(Seat::Right, left);
        Shown {
            board: line as u64 * u64::from(node.width()) + u64::from(place) + 1,
            line: line as u64 + 1,
            lines: self.entries.len() as u64,
            layout: root.kept.numbers[usize::from(place)],
            made,
            left: dealt_hand(plays, Seat::Left, left),
            right: dealt_hand(plays, Seat::Right, right),
        }
    }

    // The game of a strategy in a layout, by their places.
    fn game_at(&self, solver: &mut Solver, line: usize, place: u16) -> Result<Text, AllocError>
        requires lines { AreLines self.now.root.now self.now.entries.now }
        requires a_line { line < length self.now.entries.now }
        requires a_layout { place < length self.now.root.now.kept.node.lefts }
        ensures { IfOk result
            (IsGameAt self.now.game.now self.now.root.now self.now.entries.now line place) }
    {
        let root = self.root;
        let played = play_at(solver, &self.entries[line], &root.kept.node, place);
        let shown = self.shown_at(line, place, played.made);
        let cards = all_cards(self.alloc, root.board.plays(), &played.cards)?;
        game_text(self.alloc, self.game, &root.board, &shown, &cards)
    }

    // The games of a strategy, by its place: one for each kept layout.
    fn games_of(&self, solver: &mut Solver, line: usize) -> Result<Text, AllocError>
        requires lines { AreLines self.now.root.now self.now.entries.now }
        requires a_line { line < length self.now.entries.now }
        ensures { IfOk result
            (AreTexts (IsGameAt self.now.game.now self.now.root.now self.now.entries.now line)
            (length self.now.root.now.kept.node.lefts)) }
    {
        let root = self.root;
        let mut text = Text::new(self.alloc);
        for place in 0..root.kept.node.width() {
            let next = self.game_at(solver, line, place)?;
            text.push(next.bytes())?;
        }
        Ok(text)
    }

    // The games of all strategies.
    fn all_games(&self) -> Result<Text, AllocError>
        requires lines { AreLines self.now.root.now self.now.entries.now }
        ensures { IfOk result
            (AreGames self.now.game.now self.now.root.now self.now.entries.now) }
    {
        let mut solver = Solver::new(self.alloc);
        let mut text = Text::new(self.alloc);
        for line in 0..self.entries.len() {
            let next = self.games_of(&mut solver, line)?;
            text.push(next.bytes())?;
        }
        Ok(text)
    }
}

/// The games of a deal file that has a board. Errors: `Memory` alone, if it has one.
#[tactic(auto, unfolding(am_answer::specs::Answers::board_in))]
pub fn games_in(alloc: Global, deal: &Text) -> Result<Vec<Game>, Status>
    requires { length deal.now < 2 ^ 32 - 1 }
    ensures read { IfOk result (λ games. games_read deal.now ≡ Ok games.items) }
    ensures some { IfOk result (λ games. 1 ≤ length games.items) }
    ensures refused { IfErr result (IsFileRefusal (board_in deal.now)) }
{
    let games = games(alloc, deal.bytes())?;
    if games.is_empty() {
        return Err(Status::BadPbn(1, PbnKind::NoGame));
    }
    Ok(games)
}

/// The strategies of a report at a root as PBN games, each played out in each kept layout.
///
/// The report is judged first, and refused as `check` refuses it. The games come by strategies in
/// the report's order, and for each by layouts. A game has the tags Dealer, Vulnerable and Contract
/// of the deal file's first game, the hands before the first card, and the play so far. Then
/// declarer's side follows the strategy, and after it keeps what double dummy makes; the defenders
/// beat it if they can. So a game is made exactly if the strategy wins the layout.
pub fn tell_lines(alloc: Global, deal: &Text, root: &Root, report: &Text) -> Result<Text, Status>
    requires board { board_in deal.now ≡ Ok root.now.board }
    requires as_many { length root.now.kept.numbers ≡ length root.now.kept.node.lefts }
    requires weighed { length root.now.kept.weights ≡ length root.now.kept.node.lefts }
    requires deal_short { length deal.now < 2 ^ 32 - 1 }
    requires report_short { length report.now < 2 ^ 32 - 1 }
    ensures text { IfOk result (IsLinesReport deal.now root.now report.now) }
    ensures refused { IfErr result (IsFileRefusal (task_at root.now (jobs.Check report.now))) }
{
    let read = good_report(alloc, root, report)?;
    let games = games_in(alloc, deal)?;
    let lines = Lines {
        alloc,
        game: &games[0],
        root,
        entries: &read.entries,
    };
    let mut text = Text::from_bytes(alloc, b"% alphamu lines 1\n")?;
    text.push(lines.all_games()?.bytes())?;
    Ok(text)
}
