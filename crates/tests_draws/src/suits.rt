//! Endings in which a suit is played. The files of an ending were made by another program.
ghost use Rattle.std.specs.Prelude.{IfOk};
ghost use Rattle.suit_problem.specs.Endings.{IsEnding};

use std::test::Fail;
use suit_problem::{Ending, SuitFault, ending_of, read_hands, suit_deal, suit_layouts};

const DEAL: &str =
    "[Deal \"N:KT2.A.432. - AQ943.2.A. -\"]\n[Declarer \"S\"]\n[Contract \"1NT\"]\n[EndNeed \"7\"]\n[EndLead \"S\"]\n";

const FIRST: &str = "45 N:KT2.A.432. J8765.9.T. AQ943.2.A. .KQJT.KQJ.\n";

const LAST: &str = "45 N:KT2.A.432. .QJT9.QJT. AQ943.2.A. J8765.K.K.\n";

fn with_one_entry(dummy: &str, south: &str) -> Result<Ending, SuitFault>
    ensures { IfOk result IsEnding }
{
    let hands = read_hands(dummy.as_bytes(), south.as_bytes())?;
    ending_of(&hands, 1)
}

fn refused(dummy: &str, south: &str) -> Option<SuitFault> {
    with_one_entry(dummy, south).err()
}

#[test]
fn an_ending_has_the_files_of_the_other_program(rt: HostRuntime) -> Result<(), Fail> {
    let alloc = rt.alloc();
    let Ok(ending) = with_one_entry("k10X", "AQ9xx") else {
        return Err("the hands are read".into());
    };
    let deal = suit_deal(alloc, &ending, 5)?;
    assert_eq!(rt; deal.bytes(), DEAL.as_bytes());
    let layouts = suit_layouts(alloc, &ending)?;
    let lines = layouts.bytes();
    assert!(rt; lines.starts_with(FIRST.as_bytes()));
    assert!(rt; lines.ends_with(LAST.as_bytes()));
    assert_eq!(rt; lines.iter().filter(|byte| **byte == b'\n').count(), 32);
    Ok(())
}

#[test]
fn a_defender_has_room_for_all_missing_cards(rt: HostRuntime) -> Result<(), Fail> {
    let Ok(ending) = with_one_entry("A9x", "KJx") else {
        return Err("the hands are read".into());
    };
    assert_eq!(rt; ending.missing.count(), 7);
    assert_eq!(rt; ending.entries, 2);
    assert_eq!(rt; ending.tricks, 7);
    Ok(())
}

#[test]
fn hands_are_refused(rt: HostRuntime) -> Result<(), Fail> {
    assert_eq!(rt; refused("AQ9x11", "K"), Some(SuitFault::NotCards));
    assert_eq!(rt; refused("AQ1", "Kxxx"), Some(SuitFault::NotCards));
    assert_eq!(rt; refused("AQ 9", "Kxxx"), Some(SuitFault::NotCards));
    assert_eq!(rt; refused("AK", "Q"), Some(SuitFault::TooFew));
    assert_eq!(rt; refused("", ""), Some(SuitFault::TooFew));
    assert_eq!(rt; refused("AKQJT98", "xxxxxxx"), Some(SuitFault::TooMany));
    assert_eq!(rt; refused("AKQJT98765432", ""), Some(SuitFault::TooMany));
    assert_eq!(rt; refused("xxxxxxxxxxxxxx", ""), Some(SuitFault::TooMany));
    assert!(rt; matches!(refused("AQ9xx", "K1010"), Some(SuitFault::Twice(_))));
    assert!(rt; matches!(refused("AQ9xx", "kxa"), Some(SuitFault::Twice(_))));
    Ok(())
}
