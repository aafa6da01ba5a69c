//! Layouts that are drawn: how many fit, which are drawn if all are asked for, and how often each.
//! The counts were worked out by another program, which makes every division of the cards.
use card_sets::{Card, CardSet};
use hand_conditions::{Condition, read_condition};
use layout_draw::{Conditions, draw_layouts};
use layout_maker::MakeFault;
use pbn_deal::{Board, read_board};
use pbn_text::games;
use std::alloc::Global;
use std::test::Fail;

// Four unseen cards, of which each defender has two: six layouts.
const QUEEN: &str =
    "[Deal \"N:32... A7... KJ... Q5...\"]\n[Declarer \"S\"]\n[Contract \"1NT\"]\n[EndNeed \"1\"]\n[EndLead \"N\"]\n";

const HIDDEN: &str =
    "[Deal \"N:32... - KJ... -\"]\n[Declarer \"S\"]\n[Contract \"1NT\"]\n[EndNeed \"1\"]\n[EndLead \"N\"]\n";

// Sixteen unseen cards: 12,870 layouts.
const EIGHT: &str =
    "[Deal \"N:Q.KJT5.83.J K6.Q984.Q.8 T8.3.J7.AK5 542.7.K95.9\"]\n[Declarer \"S\"]\n[Contract \"1NT\"]\n[EndNeed \"1\"]\n[EndLead \"W\"]\n";

fn board(alloc: Global, text: &str) -> Result<Board, Fail> {
    if text.len() > 1_000 {
        return Err("the text is short".into());
    }
    let games = games(alloc, text.as_bytes())?;
    let game = games.first().ok_or("there is no game")?;
    if game.tags.is_empty() {
        return Err("the game has no tag".into());
    }
    Ok(read_board(alloc, game)?)
}

fn read_all(alloc: Global, texts: &[&str]) -> Result<Vec<Condition>, Fail> {
    let mut conditions = Vec::new(alloc);
    for text in texts {
        match read_condition(alloc, text.as_bytes()) {
            Ok(condition) => conditions.push(condition)?,
            Err(_) => return Err("a condition is read".into()),
        }
    }
    Ok(conditions)
}

fn conditions(alloc: Global, west: &[&str], east: &[&str]) -> Result<Conditions, Fail> {
    Ok(Conditions {
        left: read_all(alloc, west)?,
        right: read_all(alloc, east)?,
    })
}

// How many layouts of a board fit, 0 for none.
fn count(alloc: Global, deal: &str, west: &[&str], east: &[&str]) -> Result<usize, Fail> {
    let board = board(alloc, deal)?;
    let conditions = conditions(alloc, west, east)?;
    match draw_layouts(alloc, &board, &conditions, 1, 1) {
        Ok(drawn) => Ok(drawn.count),
        Err(MakeFault::NoneFit) => Ok(0),
        Err(_) => Err("layouts are drawn".into()),
    }
}

#[test]
fn the_layouts_that_fit_are_counted(rt: HostRuntime) -> Result<(), Fail> {
    let alloc = rt.alloc();
    assert_eq!(rt; count(alloc, EIGHT, &[], &[])?, 12_870);
    assert_eq!(rt; count(alloc, EIGHT, &["5-7 hcp"], &[])?, 6_204);
    assert_eq!(rt;
        count(alloc, EIGHT, &[], &["2+ hearts, 0-2 clubs"])?,
        11_055
    );
    assert_eq!(rt;
        count(alloc, EIGHT, &["3 spades", "4+ diamonds"], &[])?,
        5_045
    );
    assert_eq!(rt;
        count(alloc, EIGHT, &["holds DK, lacks C8"], &["6+ hcp"])?,
        330
    );
    assert_eq!(rt; count(alloc, EIGHT, &["20+ hcp"], &[])?, 0);
    let one_of_each = "1+ spades, 1+ hearts, 1+ diamonds, 1+ clubs";
    assert_eq!(rt;
        count(alloc, EIGHT, &[one_of_each], &["0 hcp", "10-99 hcp"])?,
        689
    );
    Ok(())
}

// The spades of these numbers, of which none is greater than 12.
fn spades(numbers: [u8; 2]) -> CardSet {
    let mut set = CardSet::empty();
    for number in numbers {
        set = set.with(Card::from_number(number % 13));
    }
    set
}

// Whether the layouts drawn of the ending are those in which West has these spades.
fn are_drawn(
    alloc: Global,
    west: &[&str],
    east: &[&str],
    amount: usize,
    expected: &[[u8; 2]],
) -> Result<bool, Fail> {
    let board = board(alloc, QUEEN)?;
    let conditions = conditions(alloc, west, east)?;
    let drawn = draw_layouts(alloc, &board, &conditions, 5, amount)?;
    if drawn.layouts.len() != expected.len() || drawn.count != expected.len() {
        return Ok(false);
    }
    for (layout, hand) in drawn.layouts.iter().zip(expected.iter()) {
        if layout.left != spades(*hand) || !layout.left.is_disjoint(layout.right) {
            return Ok(false);
        }
    }
    Ok(true)
}

#[test]
fn all_are_drawn_if_there_are_fewer(rt: HostRuntime) -> Result<(), Fail> {
    let alloc = rt.alloc();
    let all = [[3, 5], [3, 10], [3, 12], [5, 10], [5, 12], [10, 12]];
    assert!(rt; are_drawn(alloc, &[], &[], 256, &all)?);
    assert!(rt; are_drawn(alloc, &[], &[], 6, &all)?);
    let ace_with_west = [[3, 12], [5, 12], [10, 12]];
    assert!(rt; are_drawn(alloc, &["holds SA"], &[], 256, &ace_with_west)?);
    assert!(rt; are_drawn(alloc, &[], &["lacks SA"], 256, &ace_with_west)?);
    let either = [[3, 5], [3, 12], [5, 12], [10, 12]];
    assert!(rt; are_drawn(alloc, &["holds SA", "0 hcp"], &[], 256, &either)?);
    Ok(())
}

#[test]
fn no_layout_and_no_cards_are_refused(rt: HostRuntime) -> Result<(), Fail> {
    let alloc = rt.alloc();
    let none = conditions(alloc, &["5 hearts"], &[])?;
    let shown = board(alloc, QUEEN)?;
    assert!(rt;
        matches!(
            &draw_layouts(alloc, &shown, &none, 1, 20),
            Err(MakeFault::NoneFit)
        )
    );
    let hidden = board(alloc, HIDDEN)?;
    assert!(rt;
        matches!(
            &draw_layouts(alloc, &hidden, &none, 1, 20),
            Err(MakeFault::NotShown)
        )
    );
    Ok(())
}

// How often West is dealt each two of the four spades when two of the six layouts are drawn, over
// 1,000 seeds.
fn tallies(alloc: Global) -> Result<[u32; 6], Fail> {
    let board = board(alloc, QUEEN)?;
    let conditions = conditions(alloc, &[], &[])?;
    let hands = [[3, 5], [3, 10], [3, 12], [5, 10], [5, 12], [10, 12]];
    let mut tallies = [0u32; 6];
    for seed in 0..1_000u64 {
        let drawn = draw_layouts(alloc, &board, &conditions, seed, 2)?;
        for layout in &drawn.layouts {
            for place in 0..6 {
                if layout.left == spades(hands[place]) {
                    tallies[place] = tallies[place].saturating_add(1);
                }
            }
        }
    }
    Ok(tallies)
}

// Each is drawn by a third of the seeds: 333 times, and a standard deviation is 15. Six of them are
// 90.
#[test]
fn each_layout_is_drawn_as_often(rt: HostRuntime) -> Result<(), Fail> {
    let tallies = tallies(rt.alloc())?;
    for tally in tallies {
        assert!(rt; 243 < tally && tally < 424);
    }
    Ok(())
}
