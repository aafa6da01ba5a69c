//! What sure cards come to. Each function does nothing: its contract is the law, proved from the
//! definitions alone.
ghost use Rattle.std.specs.Prelude.{◌≡◌, ℕ, suc, ◌+◌, ◌<◌, ◌≤◌, true, false, List, [], length, min};
ghost use Rattle.trick_rules.specs.Positions.{State, to_play, tricks_left, IsState};
ghost use Rattle.trick_rules.specs.Play.{is_declarers, makes};
ghost use Rattle.trick_rules.specs.declared.trump.Trump.TheVariants.{NoTrump};
ghost use Rattle.card_sets.specs.declared.seat.Seat.{Seat};
ghost use Rattle.card_sets.specs.SetWords.{has_card};
ghost use Rattle.sure_tricks.specs.Sure.{AreSure, AreSureTogether, AreTopTrumps};
ghost use Rattle.sure_tricks.specs.Stoppers.{AreStoppers};
ghost use Rattle.sure_tricks.specs.Headed.{HeadsSuitLed, AreBeyondRuffs};

/// The side on lead takes a trick with each of its sure cards: declarer's side makes a need of no
/// more tricks, and against the defenders it fails with a need that leaves them fewer.
#[tactic(auto, using(crate::proofs::Cash::our_sure_cards_win, crate::proofs::Cash::their_sure_cards_win))]
pub fn sure_cards_win()
    ensures ours { (s : State) (sure : List ℕ) → IsState s → s.position.trick.cards ≡ []
        → AreSure s (to_play s.position) sure → is_declarers (to_play s.position) ≡ true
        → s.position.need ≤ length sure → makes s ≡ true }
    ensures theirs { (s : State) (sure : List ℕ) → IsState s → s.position.trick.cards ≡ []
        → AreSure s (to_play s.position) sure → is_declarers (to_play s.position) ≡ false
        → tricks_left s.position < s.position.need + length sure → makes s ≡ false }
{}

/// At no trump its partner's sure cards take a trick each too, up to the tricks left, if the hand
/// on lead has a card of a suit in which its partner has one.
pub fn sure_cards_win_together()
    ensures ours { (s : State) (sure partners : List ℕ) → IsState s
        → AreSureTogether s sure partners → is_declarers (to_play s.position) ≡ true
        → s.position.need ≤ min (tricks_left s.position) (length sure + length partners)
        → makes s ≡ true }
    ensures theirs { (s : State) (sure partners : List ℕ) → IsState s
        → AreSureTogether s sure partners → is_declarers (to_play s.position) ≡ false
        → tricks_left s.position
        < s.position.need + min (tricks_left s.position) (length sure + length partners)
        → makes s ≡ false }
{}

/// A side takes a trick with each top trump of either of its hands, whoever leads and whatever
/// anyone plays: declarer's side makes a need of no more tricks, and against the defenders it fails
/// with a need that leaves them fewer.
pub fn top_trumps_win()
    ensures ours { (s : State) (x : Seat) (top : List ℕ) → IsState s
        → s.position.trick.cards ≡ [] → AreTopTrumps s x top → is_declarers x ≡ true
        → s.position.need ≤ length top → makes s ≡ true }
    ensures theirs { (s : State) (x : Seat) (top : List ℕ) → IsState s
        → s.position.trick.cards ≡ [] → AreTopTrumps s x top → is_declarers x ≡ false
        → tricks_left s.position < s.position.need + length top → makes s ≡ false }
{}

/// At no trump, if stoppers outlast its other suits, the side on lead doesn't take all the tricks:
/// declarer's side fails with a need of all of them, and against the defenders it makes a need of
/// one.
#[tactic(auto, using(crate::proofs::AllTricks::we_fail, crate::proofs::AllTricks::they_fail))]
pub fn stoppers_win_a_trick()
    ensures ours { (s : State) (stoppers : List ℕ) → IsState s → s.position.trick.cards ≡ []
        → s.position.trump ≡ NoTrump → AreStoppers s (to_play s.position) stoppers
        → is_declarers (to_play s.position) ≡ true
        → tricks_left s.position ≤ s.position.need → makes s ≡ false }
    ensures theirs { (s : State) (stoppers : List ℕ) → IsState s → s.position.trick.cards ≡ []
        → s.position.trump ≡ NoTrump → AreStoppers s (to_play s.position) stoppers
        → is_declarers (to_play s.position) ≡ false → s.position.need ≤ 1 → makes s ≡ true }
{}

/// A hand that heads the suit led takes this trick, and then one with each of its sure cards that
/// nobody can ruff: declarer's side makes a need of no more tricks, and against the defenders it
/// fails with a need that leaves them fewer.
pub fn the_suit_led_is_headed()
    ensures ours { (s : State) (x : Seat) (card : ℕ) (sure : List ℕ) → IsState s
        → HeadsSuitLed s x card → AreSure s x sure → has_card sure card ≡ false
        → AreBeyondRuffs s.position.trump sure → is_declarers x ≡ true
        → s.position.need ≤ suc (length sure) → makes s ≡ true }
    ensures theirs { (s : State) (x : Seat) (card : ℕ) (sure : List ℕ) → IsState s
        → HeadsSuitLed s x card → AreSure s x sure → has_card sure card ≡ false
        → AreBeyondRuffs s.position.trump sure → is_declarers x ≡ false
        → tricks_left s.position < s.position.need + suc (length sure) → makes s ≡ false }
{}
