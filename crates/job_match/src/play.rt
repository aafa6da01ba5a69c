//! A layout played out at a table of defenders.
ghost use Rattle.std.specs.Prelude.{◌≡◌, ◌≢◌, ◌≤◌, ◌<◌, true, Option, IfOk, IfErr, IfSome, length, map, option_map};
ghost use Rattle.job_words.specs.Asks.{IsMoves, IsSearchWithinLimits, IsSwitch};
ghost use Rattle.am_match.specs.Defences.{IsChange, sitter, change_at};
ghost use Rattle.am_answer.specs.Answers.{has_choice, match_at, place_of};
ghost use Rattle.am_answer.specs.Matches.{IsFirstStrategy, IsMatchText, seated, third_at};
ghost use Rattle.am_answer.specs.Stages.{IsTaskRefusal, IsTextForAt};

use am_answer::{Root, Status};
use am_match::{Defender, Swap, play_out};
use am_report::{Entry, match_text};
use byte_text::Text;
use card_sets::Seat;
use dd_solver::Solver;
use job_search::first_strategy;
use job_words::Search;
use root_workers::RootCrew;
use std::alloc::{AllocError, Global};

// The place of a layout among the kept ones, counted from 0.
fn place_of(layout: u16, root: &Root) -> Option<usize>
    ensures { result ≡ place_of layout root.now }
{
    root.kept
        .numbers
        .iter()
        .position(|number| *number == layout)
}

// Takes the third defender from the table, for Left's seat before the card of the switch's number.
fn third_at(switch: Option<u16>, table: &mut Vec<Box<dyn Defender>>) -> Option<Swap>
    requires switch { IfSome switch IsSwitch }
    requires seats { length table.old.items ≡ 3 }
    ensures seated { map (λ d. sitter (style d) (heard d)) table.new.items
        ≡ seated switch (map (λ d. sitter (style d) (heard d)) table.old.items) }
    ensures third { option_map (λ swap. change_at swap.at swap.seat
        (sitter (style swap.defender) (heard swap.defender))) result
        ≡ third_at switch (map (λ d. sitter (style d) (heard d)) table.old.items) }
    ensures change { IfSome (option_map (λ swap. change_at swap.at swap.seat
        (sitter (style swap.defender) (heard swap.defender))) result) IsChange }
    ensures seats { 2 ≤ length table.new.items }
{
    let at = switch?;
    let defender = table.pop()?;
    Some(Swap {
        at,
        seat: Seat::Left,
        defender,
    })
}

/// A match at a root: the strategies that have `moves` moves of declarer's side, how they are
/// searched, the layout of a number, and the number of the card before which another defender comes
/// to Left's seat. Cards are numbered from 1.
#[derive(Clone, Copy)]
pub struct Match<'a> {
    pub root: &'a Root,
    pub moves: u8,
    pub search: &'a Search,
    pub layout: u16,
    pub switch: Option<u16>,
}

// Plays a strategy out at the layout of a place, and writes what came of it.
fn played_text(
    alloc: Global,
    job: &Match<'_>,
    first: &Entry,
    place: u16,
    table: &mut Vec<Box<dyn Defender>>,
) -> Result<Text, AllocError>
    requires first { IsFirstStrategy job.now.root.now.kept.node job.now.root.now.kept.weights
        job.now.moves first.now.vector first.now.plan }
    requires inside { place < length job.now.root.now.kept.node.lefts }
    requires switch { IfSome job.now.switch IsSwitch }
    requires seats { length table.old.items ≡ 3 }
    ensures text { IfOk result (IsMatchText job.now.root.now job.now.moves
        (record { layout = job.now.layout; place = place; switch = job.now.switch })
        (map (λ d. sitter (style d) (heard d)) table.old.items)
        (map (λ d. sitter (style d) (heard d)) table.new.items)) }
{
    let root = job.root;
    let node = &root.kept.node;
    prove!(node.width() > 0);
    let bit = first.vector.get(place);
    let swap = third_at(job.switch, table);
    let mut solver = Solver::new(alloc);
    let played = play_out(
        &mut solver,
        &first.plan,
        node,
        job.moves,
        place + 1,
        table,
        swap,
    )?;
    match_text(alloc, job.layout, bit, &played.cards, played.made)
}

/// Plays out the first strategy that is printed for a root in one kept layout.
///
/// The table's first defender sits at Left and its second at Right. With a switch, the table's
/// third takes over Left's seat before the card of that number. Each defender who sits hears the
/// cards.
///
/// Errors: `NoLayout` if the layout of the number isn't kept, and otherwise those of `solve`. The
/// table is left as it was, unless an allocation fails.
pub fn play_match<C: RootCrew>(
    crew: &C,
    alloc: Global,
    job: &Match<'_>,
    table: &mut Vec<Box<dyn Defender>>,
) -> Result<Text, Status>
    requires ready { C.ready crew.now }
    requires turn { has_choice job.now.root.now.kept.node ≡ true }
    requires as_many { length job.now.root.now.kept.numbers
        ≡ length job.now.root.now.kept.node.lefts }
    requires weighed { length job.now.root.now.kept.weights
        ≡ length job.now.root.now.kept.node.lefts }
    requires moves { IsMoves job.now.moves }
    requires limits { IsSearchWithinLimits job.now.search.now }
    requires switch { IfSome job.now.switch IsSwitch }
    requires seats { length table.old.items ≡ 3 }
    ensures text { IfOk result (IsTextForAt (match_at job.now.root.now job.now.moves
        job.now.search.now job.now.layout job.now.switch)
        (map (λ d. sitter (style d) (heard d)) table.old.items)
        (map (λ d. sitter (style d) (heard d)) table.new.items)) }
    ensures refused { IfErr result (IsTaskRefusal (match_at job.now.root.now job.now.moves
        job.now.search.now job.now.layout job.now.switch)) }
    ensures untouched { IfErr result (λ status.
        status ≢ Status.Memory → table.new ≡ table.old) }
{
    let root = job.root;
    let Some(place) = place_of(job.layout, root) else {
        return Err(Status::NoLayout(job.layout));
    };
    let first = first_strategy(crew, alloc, root, job.moves, job.search)?;
    prove!(root.kept.node.width() > 0);
    let text = played_text(alloc, job, &first, place as u16, table)?;
    Ok(text)
}
