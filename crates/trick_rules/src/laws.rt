//! What the definitions come to. Each function does nothing: its contract is the law, proved from
//! the definitions alone.
ghost use Rattle.std.specs.Prelude.{◌≡◌, ◌≢◌, ◌↔◌, ℕ, ◌+◌, ◌<◌, ◌≤◌, ◌==◌, Bool, true, false, Some, None, List, [], map, filter, length, All, AllPairs, Contains, if◌then◌else◌};
ghost use Rattle.std.specs.List.{list_any, list_all};
ghost use Rattle.card_sets.specs.SetWords.{has_card, Apart};
ghost use Rattle.card_sets.specs.declared.seat.Seat.{Seat};
ghost use Rattle.trick_rules.specs.declared.trump.Trump.{Trump};
ghost use Rattle.trick_rules.specs.Positions.{TrickValue, PositionValue, State, seat_after, to_play, played_count, tricks_left, IsSound, IsState};
ghost use Rattle.trick_rules.specs.Play.{IsWonBy, is_declarers, winner_of, after_card, after, CanPlay, is_over, decided, hand_of, legal_in, makes, Makes, cards_left};
ghost use Rattle.trick_rules.specs.Nodes.{NodeValue, IsNode, states, is_legal, choices, child};

// ---- tricks and positions

/// A trick of four cards has exactly one winner: the seat of the one card that beats each other
/// card.
#[tactic(auto, using(crate::proofs::PlayLaws::one_card_wins))]
pub fn one_card_wins()
    ensures { (trump : Trump) (trick : TrickValue) → length trick.cards ≡ 4
        → All (λ c. c < 52) trick.cards
        → AllPairs (λ c d. c ≢ d) trick.cards
        → (place : ℕ) × IsWonBy trump trick.cards place
        × ((other : ℕ) → IsWonBy trump trick.cards other → other ≡ place)
        × (winner_of trump trick ≡ seat_after place trick.leader) }
{}

/// A card that the seat to play may hold leaves a sound position.
#[tactic(auto, using(crate::proofs::PlayLaws::a_card_keeps_the_position_sound))]
pub fn a_card_keeps_the_position_sound()
    ensures { (t : PositionValue) (card : ℕ) → IsSound t → CanPlay t card
        → IsSound (after_card t card) }
{}

/// The tricks left fall by one at the fourth card of a trick, and stay else.
#[tactic(auto, using(crate::proofs::PlayLaws::the_fourth_card_ends_a_trick))]
pub fn the_fourth_card_ends_a_trick()
    ensures { (t : PositionValue) (card : ℕ) → IsSound t → CanPlay t card
        → tricks_left (after_card t card) + (if length t.trick.cards == 3 then 1 else 0)
        ≡ tricks_left t }
{}

/// The need never rises. It falls at the fourth card of a trick alone, and by no more than one.
#[tactic(auto, using(crate::proofs::PlayLaws::the_need_never_rises, crate::proofs::PlayLaws::the_need_falls_by_one_at_most))]
pub fn the_need_falls_by_one_at_most()
    ensures never_rises { (t : PositionValue) (card : ℕ) → IsSound t
        → (after_card t card).need ≤ t.need }
    ensures by_one { (t : PositionValue) (card : ℕ) → IsSound t
        → t.need ≤ (after_card t card).need + (if length t.trick.cards == 3 then 1 else 0) }
{}

/// Each card leaves one card fewer to play.
#[tactic(auto, using(crate::proofs::PlayLaws::a_card_leaves_one_fewer))]
pub fn a_card_leaves_one_fewer()
    ensures { (t : PositionValue) (card : ℕ) → IsSound t → CanPlay t card
        → cards_left (after_card t card) + 1 ≡ cards_left t }
{}

/// A result that is decided stays as it is.
pub fn what_is_decided_stays()
    ensures { (t : PositionValue) (card : ℕ) (made : Bool) → IsSound t → CanPlay t card
        → decided t ≡ Some made → decided (after_card t card) ≡ Some made }
{}

/// A position that is over is decided.
#[tactic(auto, using(crate::proofs::PlayLaws::what_is_over_is_decided))]
pub fn what_is_over_is_decided()
    ensures { (t : PositionValue) → is_over t ≡ true → decided t ≡ Some (t.need == 0) }
{}

// ---- states

/// A legal card leads from a state to a state.
#[tactic(auto, using(crate::proofs::PlayLaws::a_legal_card_leads_to_a_state))]
pub fn a_legal_card_leads_to_a_state()
    ensures { (s : State) (card : ℕ) → IsState s → has_card (legal_in s) card ≡ true
        → IsState (after s card) }
{}

/// A legal card is in the hand of the seat to play, and the position lets that seat play it.
#[tactic(auto, using(crate::proofs::PlayLaws::a_legal_card_is_held, crate::proofs::PlayLaws::a_legal_card_can_be_played))]
pub fn a_legal_card_can_be_played()
    ensures held { (s : State) (card : ℕ) → IsState s → has_card (legal_in s) card ≡ true
        → has_card (hand_of s (to_play s.position)) card ≡ true }
    ensures playable { (s : State) (card : ℕ) → IsState s → has_card (legal_in s) card ≡ true
        → CanPlay s.position card }
{}

/// While tricks are left, so wherever the result is open, the seat to play has a legal card.
#[tactic(auto, using(crate::proofs::PlayLaws::there_is_a_legal_card, crate::proofs::PlayLaws::there_is_a_legal_card_where_undecided))]
pub fn there_is_a_legal_card()
    ensures open_play { (s : State) → IsState s → is_over s.position ≡ false
        → (card : ℕ) × (has_card (legal_in s) card ≡ true) }
    ensures undecided { (s : State) → IsState s → decided s.position ≡ None
        → (card : ℕ) × (has_card (legal_in s) card ≡ true) }
{}

/// Each seat holds as many cards as tricks are left, less the card that it has played to the
/// present one.
#[tactic(auto, using(crate::proofs::PlayLaws::hands_have_one_length))]
pub fn hands_have_one_length()
    ensures { (s : State) (seat : Seat) → IsState s
        → length (hand_of s seat) + played_count s.position seat ≡ tricks_left s.position }
{}

/// No card is held by two seats, and none that lies in the trick is held.
#[tactic(auto, using(crate::proofs::PlayLaws::hands_are_apart, crate::proofs::PlayLaws::the_trick_is_not_held))]
pub fn hands_are_apart()
    ensures hands { (s : State) (seat other : Seat) → IsState s → seat ≢ other
        → Apart (hand_of s seat) (hand_of s other) }
    ensures trick { (s : State) (seat : Seat) → IsState s
        → Apart s.position.trick.cards (hand_of s seat) }
{}

// ---- double dummy

/// A play that is over makes if no need is left.
#[tactic(auto, using(crate::proofs::PlayLaws::makes_at_the_end))]
pub fn makes_at_the_end()
    ensures { (s : State) → is_over s.position ≡ true → makes s ≡ (s.position.need == 0) }
{}

/// Declarer's side makes where some legal card makes.
#[tactic(auto, using(crate::proofs::PlayLaws::makes_by_some_card))]
pub fn makes_by_some_card()
    ensures { (s : State) → IsState s → is_over s.position ≡ false
        → is_declarers (to_play s.position) ≡ true
        → makes s ≡ list_any (λ card. makes (after s card)) (legal_in s) }
{}

/// At a defender's turn declarer's side makes if each legal card makes.
#[tactic(auto, using(crate::proofs::PlayLaws::makes_against_each_card))]
pub fn makes_against_each_card()
    ensures { (s : State) → IsState s → is_over s.position ≡ false
        → is_declarers (to_play s.position) ≡ false
        → makes s ≡ list_all (λ card. makes (after s card)) (legal_in s) }
{}

/// `makes` says the same as its rules, both ways.
#[tactic(auto, using(crate::proofs::PlayLaws::makes_by_the_rules))]
pub fn makes_by_the_rules()
    ensures { (s : State) → IsState s → (makes s ≡ true) ↔ Makes s }
{}

/// A result that is decided is what double dummy says.
#[tactic(auto, using(crate::proofs::PlayLaws::makes_where_decided, crate::proofs::PlayLaws::what_is_decided_is_the_need))]
pub fn makes_where_decided()
    ensures makes { (s : State) (made : Bool) → IsState s → decided s.position ≡ Some made
        → makes s ≡ made }
    ensures need { (t : PositionValue) (made : Bool) → decided t ≡ Some made
        → made ≡ (t.need == 0) }
{}

// ---- nodes

/// Each layout of a node gives a state.
#[tactic(auto, using(crate::proofs::PlayLaws::a_layout_gives_a_state))]
pub fn a_layout_gives_a_state()
    ensures { (n : NodeValue) → IsNode n → All IsState (states n) }
{}

/// A card that is legal in some layout leads to a node.
#[tactic(auto, using(crate::proofs::PlayLaws::a_choice_leads_to_a_node))]
pub fn a_choice_leads_to_a_node()
    ensures { (n : NodeValue) (card : ℕ) → IsNode n → has_card (choices n) card ≡ true
        → IsNode (child n card) }
{}

/// The states of a child are what the card leaves of the states in which it is legal.
#[tactic(auto, using(crate::proofs::PlayLaws::a_child_keeps_the_states))]
pub fn a_child_keeps_the_states()
    ensures { (n : NodeValue) (card : ℕ)
        → states (child n card) ≡ map
        (λ s. after s card) (filter (λ s. has_card (legal_in s) card) (states n)) }
{}

/// The cards of declarer's side are seen by all: its choices are legal in every layout.
#[tactic(auto, using(crate::proofs::PlayLaws::our_choices_are_legal_everywhere))]
pub fn our_choices_are_legal_everywhere()
    ensures { (n : NodeValue) (card : ℕ) → is_declarers (to_play n.position) ≡ true
        → has_card (choices n) card ≡ true
        → All (λ s. has_card (legal_in s) card ≡ true) (states n) }
{}

/// A card is among the choices if it is legal in some layout.
#[tactic(auto, using(crate::proofs::PlayLaws::what_is_legal_is_a_choice))]
pub fn what_is_legal_is_a_choice()
    ensures { (n : NodeValue) (card : ℕ) (s : State) → IsNode n → Contains (states n) s
        → has_card (legal_in s) card ≡ true
        → has_card (choices n) card ≡ true }
{}

/// While tricks are left, each layout has a legal card among the choices.
#[tactic(auto, using(crate::proofs::PlayLaws::there_is_a_choice, crate::proofs::PlayLaws::there_is_a_choice_everywhere))]
pub fn there_is_a_choice()
    ensures somewhere { (n : NodeValue) → IsNode n → is_over n.position ≡ false
        → (card : ℕ) × (has_card (choices n) card ≡ true) }
    ensures everywhere { (n : NodeValue) (s : State) → IsNode n → is_over n.position ≡ false
        → Contains (states n) s
        → (card : ℕ) × (has_card (choices n) card ≡ true) × (has_card (legal_in s) card ≡ true) }
{}

/// A choice can be played by the seat to play.
#[tactic(auto, using(crate::proofs::PlayLaws::a_choice_can_be_played))]
pub fn a_choice_can_be_played()
    ensures { (n : NodeValue) (card : ℕ) → IsNode n → has_card (choices n) card ≡ true
        → CanPlay n.position card }
{}
