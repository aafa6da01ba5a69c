//! What the definitions come to. Each function does nothing: its contract is the law, proved from
//! the definitions alone.
ghost use Rattle.std.specs.Prelude.{◌≡◌, ◌≢◌, ℕ, suc, ◌+◌, ◌<◌, ◌≤◌, Bool, true, false, not, ◌&&◌, ◌||◌, Some, List, [], length, min, nat_lt, slice_index, All, AllPairs};
ghost use Rattle.card_sets.specs.Cards.{suit_of, same_suit};
ghost use Rattle.card_sets.specs.declared.seat.Seat.{Seat};
ghost use Rattle.card_sets.specs.SetWords.{has_card, cards_where, IsSubset};
ghost use Rattle.trick_rules.specs.declared.trump.Trump.{Trump};
ghost use Rattle.trick_rules.specs.declared.trump.Trump.TheVariants.{NoTrump};
ghost use Rattle.trick_rules.specs.Positions.{State, to_play, tricks_left, IsState};
ghost use Rattle.trick_rules.specs.Play.{after, decided, is_declarers, is_over, legal_in, IsWonBy};
ghost use Rattle.sure_tricks.specs.Sure.{AreSure, AreSureTogether, AreTopTrumps};
ghost use Rattle.sure_tricks.specs.Stoppers.{AreStoppers};
ghost use Rattle.sure_tricks.specs.Headed.{HeadsSuitLed, AreBeyondRuffs};
ghost use Rattle.double_dummy.specs.Needs.{with_need};
ghost use Rattle.equivalent_positions.specs.Alike.{IsClosedUp, IsLike, IsLikeHand, AreAlike, SettlesTrick, SettlesEnd, HasAnswer, GivesAnswer};
ghost use Rattle.equivalent_positions.specs.Enough.{AreEnough};

// ---- alike states

/// A state is alike to itself, whichever cards count; of two alike states each is alike to the
/// other; and what is alike to one of them is alike to the other.
#[tactic(auto, using(crate::proofs::Likes::alike_self, crate::proofs::Likes::alike_back, crate::proofs::Likes::alike_on))]
pub fn alike_states_are_a_class()
    ensures itself { (counting : List ℕ) (s : State) → AreAlike counting s s }
    ensures back { (counting : List ℕ) (s t : State) → AreAlike counting s t
        → AreAlike counting t s }
    ensures on { (counting : List ℕ) (s t u : State) → AreAlike counting s t
        → AreAlike counting t u → AreAlike counting s u }
{}

/// States are alike by some of the cards by which they are alike.
#[tactic(auto, using(crate::proofs::Likes::alike_less))]
pub fn fewer_cards_keep_states_alike()
    ensures { (part counting : List ℕ) (s t : State) → IsSubset part counting
        → AreAlike counting s t → AreAlike part s t }
{}

/// In alike states the same seat is to play, as many tricks are left, and what is decided is
/// decided alike.
#[tactic(auto, using(crate::proofs::Likes::alike_turn))]
pub fn alike_states_are_decided_alike()
    ensures turn { (counting : List ℕ) (s t : State) → AreAlike counting s t
        → to_play s.position ≡ to_play t.position }
    ensures tricks { (counting : List ℕ) (s t : State) → AreAlike counting s t
        → tricks_left s.position ≡ tricks_left t.position }
    ensures result { (counting : List ℕ) (s t : State) → AreAlike counting s t
        → decided s.position ≡ decided t.position }
{}

/// Between two tricks, if the trick, trumps and need are the same, it is enough to look at
/// declarer's hand, dummy's, the unseen cards and Left's.
pub fn like_hands_make_alike_states()
    ensures { (counting : List ℕ) (s t : State) → IsState s → IsState t
        → s.position.trick ≡ t.position.trick → s.position.trump ≡ t.position.trump
        → s.position.need ≡ t.position.need
        → IsLikeHand counting s.position.declarer t.position.declarer
        → IsLikeHand counting s.position.dummy t.position.dummy
        → IsLikeHand counting s.position.unseen t.position.unseen
        → IsLikeHand counting s.left t.left
        → AreAlike counting s t }
{}

// ---- cards that count

/// Closed up are: no card; a card with all higher ones of its suit; and the cards of two sets that
/// are closed up.
pub fn sets_that_are_closed_up()
    ensures none { IsClosedUp [] }
    ensures higher { (low : ℕ) → IsClosedUp
        (cards_where (λ card. same_suit (suit_of card) (suit_of low) && not (nat_lt card low))) }
    ensures both { (these those : List ℕ) → IsClosedUp these → IsClosedUp those
        → IsClosedUp (cards_where (λ card. has_card these card || has_card those card)) }
{}

/// A trick is settled if the card that wins it counts.
pub fn the_winner_settles_its_trick()
    ensures { (counting : List ℕ) (trump : Trump) (cards : List ℕ) (place : ℕ)
        → All (λ card. card < 52) cards → AllPairs (λ card other. card ≢ other) cards
        → IsWonBy trump cards place → has_card counting (slice_index cards place) ≡ true
        → SettlesTrick counting trump cards }
{}

// ---- a card

/// For each legal card of a state there is a legal card of an alike state that is like it.
pub fn a_like_card_is_legal()
    ensures { (counting : List ℕ) (s t : State) (card : ℕ) → IsState s → IsState t
        → AreAlike counting s t → has_card (legal_in s) card ≡ true
        → (other : ℕ) × (has_card (legal_in t) other ≡ true) × IsLike counting card other }
{}

/// Legal cards that are like each other lead from alike states to alike states, if the cards that
/// count are closed up and settle the trick that the card ends.
pub fn like_cards_leave_alike_states()
    ensures { (counting : List ℕ) (s t : State) (card other : ℕ) → IsClosedUp counting
        → IsState s → IsState t → AreAlike counting s t → has_card (legal_in s) card ≡ true
        → has_card (legal_in t) other ≡ true → IsLike counting card other
        → SettlesEnd counting s card → AreAlike counting (after s card) (after t other) }
{}

// ---- sure cards and top trumps

/// Cards that are sure in a state and count are sure in each alike state, if the cards that count
/// are closed up.
pub fn sure_cards_stay_sure()
    ensures { (counting : List ℕ) (s t : State) (seat : Seat) (sure : List ℕ)
        → IsClosedUp counting → IsState t → AreAlike counting s t → IsSubset sure counting
        → AreSure s seat sure → AreSure t seat sure }
{}

/// Top trumps that count are top trumps in each alike state, if the cards that count are closed up.
pub fn top_trumps_stay()
    ensures { (counting : List ℕ) (s t : State) (seat : Seat) (top : List ℕ)
        → IsClosedUp counting → IsState t → AreAlike counting s t → IsSubset top counting
        → AreTopTrumps s seat top → AreTopTrumps t seat top }
{}

/// Stoppers that count are stoppers in each alike state, if the cards that count are closed up.
pub fn stoppers_stay()
    ensures { (counting : List ℕ) (s t : State) (seat : Seat) (stoppers : List ℕ)
        → IsClosedUp counting → IsState s → IsState t → AreAlike counting s t
        → IsSubset stoppers counting → AreStoppers s seat stoppers
        → AreStoppers t seat stoppers }
{}

// ---- answers

/// What is decided is answered for every alike state, whichever cards count.
pub fn a_decided_state_answers()
    ensures { (counting : List ℕ) (s : State) (made : Bool)
        → decided s.position ≡ Some made → HasAnswer counting s made }
{}

/// The sure cards of the hand on lead answer for every alike state, where they count.
pub fn sure_cards_answer()
    ensures ours { (counting : List ℕ) (s : State) (sure : List ℕ) → IsClosedUp counting
        → IsSubset sure counting → s.position.trick.cards ≡ []
        → AreSure s (to_play s.position) sure → is_declarers (to_play s.position) ≡ true
        → s.position.need ≤ length sure → HasAnswer counting s true }
    ensures theirs { (counting : List ℕ) (s : State) (sure : List ℕ) → IsClosedUp counting
        → IsSubset sure counting → s.position.trick.cards ≡ []
        → AreSure s (to_play s.position) sure → is_declarers (to_play s.position) ≡ false
        → tricks_left s.position < s.position.need + length sure → HasAnswer counting s false }
{}

/// At no trump, so do the sure cards of both hands of the side on lead, if a card leads over.
pub fn sure_cards_answer_together()
    ensures ours { (counting : List ℕ) (s : State) (sure partners : List ℕ)
        → IsClosedUp counting → IsSubset sure counting → IsSubset partners counting → IsState s
        → AreSureTogether s sure partners → is_declarers (to_play s.position) ≡ true
        → s.position.need ≤ min (tricks_left s.position) (length sure + length partners)
        → HasAnswer counting s true }
    ensures theirs { (counting : List ℕ) (s : State) (sure partners : List ℕ)
        → IsClosedUp counting → IsSubset sure counting → IsSubset partners counting → IsState s
        → AreSureTogether s sure partners → is_declarers (to_play s.position) ≡ false
        → tricks_left s.position
        < s.position.need + min (tricks_left s.position) (length sure + length partners)
        → HasAnswer counting s false }
{}

/// Top trumps of a hand answer for every alike state, where they count, whoever leads.
pub fn top_trumps_answer()
    ensures ours { (counting : List ℕ) (s : State) (x : Seat) (top : List ℕ) → IsClosedUp counting
        → IsSubset top counting → s.position.trick.cards ≡ [] → AreTopTrumps s x top
        → is_declarers x ≡ true → s.position.need ≤ length top → HasAnswer counting s true }
    ensures theirs { (counting : List ℕ) (s : State) (x : Seat) (top : List ℕ)
        → IsClosedUp counting → IsSubset top counting → s.position.trick.cards ≡ []
        → AreTopTrumps s x top → is_declarers x ≡ false
        → tricks_left s.position < s.position.need + length top → HasAnswer counting s false }
{}

/// At no trump the stoppers that the side on lead would have to outlast answer for every alike
/// state, where they count, if it needs all the tricks.
pub fn stoppers_answer()
    ensures ours { (counting : List ℕ) (s : State) (stoppers : List ℕ) → IsClosedUp counting
        → IsSubset stoppers counting → IsState s → s.position.trick.cards ≡ []
        → s.position.trump ≡ NoTrump → AreStoppers s (to_play s.position) stoppers
        → is_declarers (to_play s.position) ≡ true
        → tricks_left s.position ≤ s.position.need → HasAnswer counting s false }
    ensures theirs { (counting : List ℕ) (s : State) (stoppers : List ℕ) → IsClosedUp counting
        → IsSubset stoppers counting → IsState s → s.position.trick.cards ≡ []
        → s.position.trump ≡ NoTrump → AreStoppers s (to_play s.position) stoppers
        → is_declarers (to_play s.position) ≡ false → s.position.need ≤ 1
        → HasAnswer counting s true }
{}

/// A card that heads the suit led answers for every alike state, with the sure cards that follow
/// it, if all of them count.
pub fn a_headed_suit_answers()
    ensures ours { (counting : List ℕ) (s : State) (x : Seat) (card : ℕ) (sure : List ℕ)
        → IsClosedUp counting → has_card counting card ≡ true → IsSubset sure counting
        → HeadsSuitLed s x card → AreSure s x sure → has_card sure card ≡ false
        → AreBeyondRuffs s.position.trump sure → is_declarers x ≡ true
        → s.position.need ≤ suc (length sure) → HasAnswer counting s true }
    ensures theirs { (counting : List ℕ) (s : State) (x : Seat) (card : ℕ) (sure : List ℕ)
        → IsClosedUp counting → has_card counting card ≡ true → IsSubset sure counting
        → HeadsSuitLed s x card → AreSure s x sure → has_card sure card ≡ false
        → AreBeyondRuffs s.position.trump sure → is_declarers x ≡ false
        → tricks_left s.position < s.position.need + suc (length sure)
        → HasAnswer counting s false }
{}

/// An answer goes from a state to an alike one, and from some of the cards that count to all. What
/// a card gives goes from some to all too, and to like cards.
#[tactic(auto, using(crate::proofs::Answers::an_alike_state_answers, crate::proofs::Answers::more_cards_answer, crate::proofs::Answers::like_cards_give_the_answer))]
pub fn an_answer_is_passed_on()
    ensures state { (counting : List ℕ) (s t : State) (made : Bool) → AreAlike counting s t
        → HasAnswer counting s made → HasAnswer counting t made }
    ensures cards { (part counting : List ℕ) (s : State) (made : Bool) → IsSubset part counting
        → HasAnswer part s made → HasAnswer counting s made }
    ensures card { (part counting : List ℕ) (s : State) (card : ℕ) (made : Bool)
        → IsSubset part counting → GivesAnswer part s card made
        → GivesAnswer counting s card made }
    ensures like { (counting : List ℕ) (s : State) (card other : ℕ) (made : Bool)
        → IsLike counting card other → GivesAnswer counting s card made
        → GivesAnswer counting s other made }
{}

/// If the side to play wants the answer that one of its cards gives, that is the answer.
pub fn one_card_answers()
    ensures { (counting : List ℕ) (s : State) (card : ℕ) (made : Bool) → IsState s
        → has_card (legal_in s) card ≡ true → is_declarers (to_play s.position) ≡ made
        → GivesAnswer counting s card made → HasAnswer counting s made }
{}

/// What each legal card gives is the answer, whichever side plays.
pub fn all_cards_answer()
    ensures { (counting : List ℕ) (s : State) (made : Bool) → IsState s
        → is_over s.position ≡ false
        → ((card : ℕ) → has_card (legal_in s) card ≡ true → GivesAnswer counting s card made)
        → HasAnswer counting s made }
{}

/// What enough of the legal cards give is the answer for every alike state, whichever side plays,
/// if the cards that count are closed up.
pub fn one_of_equals_answers()
    ensures { (counting : List ℕ) (s : State) (made : Bool) (cards : List ℕ)
        → IsClosedUp counting → IsState s → is_over s.position ≡ false
        → AreEnough counting s cards
        → ((card : ℕ) → has_card cards card ≡ true → has_card (legal_in s) card ≡ true
        → GivesAnswer counting s card made)
        → HasAnswer counting s made }
{}

/// Alike states stay alike with another need, and an answer to one need answers the lower ones if
/// it is made, and the higher ones if it fails, for every alike state.
pub fn an_answer_settles_other_needs()
    ensures alike { (counting : List ℕ) (s t : State) (need : ℕ) → AreAlike counting s t
        → AreAlike counting (with_need s need) (with_need t need) }
    ensures lower { (counting : List ℕ) (s : State) (need : ℕ) → IsState s
        → need ≤ s.position.need → HasAnswer counting s true
        → HasAnswer counting (with_need s need) true }
    ensures higher { (counting : List ℕ) (s : State) (need : ℕ) → IsState s
        → s.position.need ≤ need → need ≤ 13 → HasAnswer counting s false
        → HasAnswer counting (with_need s need) false }
{}
