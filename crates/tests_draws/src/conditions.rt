//! Conditions on a hand: which hands meet them, and which texts are none.
use card_sets::{CardSet, Compass};
use hand_conditions::{Condition, ConditionFault, TermFault, points, read_condition, shape};
use pbn_deal::read_deal;
use std::alloc::Global;
use std::test::Fail;

// Fourteen points: three aces and a queen. The shape is 4432.
const HAND: &str = "W:AQ32.A54.A987.65 - - -";

fn hand(text: &str) -> Result<CardSet, Fail> {
    let deal = read_deal(text.as_bytes()).map_err(|_| "a hand is read")?;
    let Some(hand) = deal.hand(Compass::W) else {
        return Err("West's hand is shown".into());
    };
    Ok(hand)
}

fn condition(alloc: Global, text: &str) -> Result<Condition, Fail> {
    match read_condition(alloc, text.as_bytes()) {
        Ok(condition) => Ok(condition),
        Err(_) => Err("a condition is read".into()),
    }
}

// Whether West's hand in a deal meets a condition.
fn meets(alloc: Global, deal: &str, text: &str) -> Result<bool, Fail> {
    let hand = hand(deal)?;
    Ok(condition(alloc, text)?.is_met_by(hand))
}

#[test]
fn a_hand_is_counted(rt: HostRuntime) -> Result<(), Fail> {
    let hand = hand(HAND)?;
    assert_eq!(rt; points(hand), 14);
    assert_eq!(rt; shape(hand), [4, 3, 4, 2]);
    Ok(())
}

#[test]
fn a_hand_meets_what_a_player_would_say_of_it(rt: HostRuntime) -> Result<(), Fail> {
    let alloc = rt.alloc();
    for text in [
        "14 hcp",
        "12-14 hcp",
        "14-16 hcp",
        "14+ hcp",
        "0+ hcp",
        "4 spades, 3 hearts, 4 diamonds, 2 clubs",
        "balanced",
        "holds SA",
        "holds sa HA da",
        "lacks SK CA",
        " 12+ hcp ,\t4+ spades,balanced,  holds  SQ , lacks SK",
    ] {
        assert!(rt; meets(alloc, HAND, text)?);
    }
    for text in [
        "13 hcp",
        "15+ hcp",
        "11-13 hcp",
        "15-17 hcp",
        "5+ spades",
        "0-2 hearts",
        "holds SA SK",
        "lacks SK SA",
        "14 hcp, balanced, 3 clubs",
    ] {
        assert!(rt; !meets(alloc, HAND, text)?);
    }
    Ok(())
}

#[test]
fn three_shapes_are_balanced(rt: HostRuntime) -> Result<(), Fail> {
    let alloc = rt.alloc();
    for deal in [
        "W:AQ32.A54.A98.765 - - -",
        "W:AQ3.A5.A98.76543 - - -",
        "W:AQ.A543.A98.7654 - - -",
    ] {
        assert!(rt; meets(alloc, deal, "balanced")?);
    }
    for deal in [
        "W:AQ32.A5.A9.76543 - - -",
        "W:AQ32.A.A987.7654 - - -",
        "W:AQ3.A5.98.765432 - - -",
        "W:AQ3.A54.A98.765 - - -",
    ] {
        assert!(rt; !meets(alloc, deal, "balanced")?);
    }
    Ok(())
}

// Whether a text is refused for this term and this reason.
fn is_refused(alloc: Global, text: &str, term: &str, why: TermFault) -> bool {
    match read_condition(alloc, text.as_bytes()) {
        Err(ConditionFault::Term(found, fault)) => {
            found.bytes() == term.as_bytes() && fault == why
        }
        _ => false,
    }
}

#[test]
fn a_term_that_says_nothing_is_told(rt: HostRuntime) -> Result<(), Fail> {
    let alloc = rt.alloc();
    for term in [
        "",
        " ",
        "hcp",
        "15",
        "15 ",
        "15 points",
        "15 HCP",
        "5 + hearts",
        "5+ heart",
        "-5 hcp",
        "5- hcp",
        "5++ hcp",
        "+5 hcp",
        "05 hcp",
        "100 hcp",
        "1-2-3 hcp",
        "5+hcp",
        "5 hcp 6",
        "balanced 5",
        "holds",
        "lacks",
        "holds S",
        "holds SKQ",
        "holds S10",
        "holds KS",
        "has SK",
    ] {
        assert!(rt; is_refused(alloc, term, term, TermFault::NotUnderstood));
    }
    assert!(rt; is_refused(alloc, "17-15 hcp", "17-15 hcp", TermFault::UpsideDown));
    assert!(rt;
        is_refused(
            alloc,
            "5 hearts, 3-2 clubs,x",
            " 3-2 clubs",
            TermFault::UpsideDown
        )
    );
    assert!(rt; is_refused(alloc, "5 hearts,", "", TermFault::NotUnderstood));
    assert!(rt; is_refused(alloc, "x,3-2 clubs", "x", TermFault::NotUnderstood));
    Ok(())
}
