//! Double dummy with the cards that most often settle it tried first, with relative ranks, and with
//! a memo of sets.
ghost use Rattle.std.specs.Prelude.{◌≡◌, None, true};
ghost use Rattle.card_sets.specs.SetWords.{has_card, IsSubset};
ghost use Rattle.trick_rules.specs.Positions.{FitsLeft, IsState, to_play};
ghost use Rattle.trick_rules.specs.Play.{decided, is_declarers, legal_in};
ghost use Rattle.equivalent_positions.specs.Alike.{IsClosedUp, GivesAnswer};
ghost use Rattle.dd_solver.specs.Keys.{key_state, HasShape};
ghost use Rattle.dd_solver.specs.Shapes.{IsShapeOf};
ghost use Rattle.dd_solver.specs.Turns.{turn_state, IsTurn};
ghost use Rattle.dd_solver.specs.Answers.{IsAnswer, IsGiven};

use crate::answer::{Answer, joined, with_winner};
use crate::enough::{one_of_equals, with_lower_equals, without_like};
use crate::hands::{has_two, only_of};
use crate::headed::headed_answer;
use crate::key::Key;
use crate::needs_all::needs_all_answer;
use crate::order::turn_of;
use crate::recall::Recall;
use crate::relative_ranks::RelativeRanks;
use crate::shape::Shape;
use crate::sure::sure_answer;
use crate::top_trumps::top_trumps_answer;
use crate::turn::Turn;
use card_sets::{Card, CardSet};
use trick_rules::{Position, end_trick};

/// Whether declarer's side takes the need where Left holds these cards, with all cards seen by all,
/// and the cards that count for it.
#[cycle(search)]
pub(crate) fn search(
    recall: &mut Recall,
    position: &Position,
    left: CardSet,
    shape: Shape,
) -> Answer
    requires fits { FitsLeft position.now left }
    requires shape { IsShapeOf shape (record { position = position.now; left = left }) }
    ensures state { IsState (record { position = position.now; left = left }) }
    ensures answer { IsAnswer (record { position = position.now; left = left }) result }
    ensures limit { recall.new.own.most ≡ recall.old.own.most }
{
    let between = position.trick.cards.is_empty();
    if let Some(made) = position.decided() {
        return Answer {
            made,
            counting: CardSet::empty(),
        };
    }
    // With one trick left there is no choice, and looking takes longer than playing.
    if !between || !has_two(position.declarer) {
        return search_turn(recall, &Turn::of(position, left, shape));
    }
    let ranks = RelativeRanks::of(&Key::of(position, left, shape));
    let answer = search_key(recall, &ranks.key);
    ranks.carried_back(&answer)
}

// The same for the position of a key, which the memo may know.
#[cycle(search)]
fn search_key(recall: &mut Recall, key: &Key) -> Answer
    requires state { IsState (key_state key.now) }
    requires shape { HasShape key.now }
    requires open { decided (key_state key.now).position ≡ None }
    ensures answer { IsAnswer (key_state key.now) result }
    ensures limit { recall.new.own.most ≡ recall.old.own.most }
{
    if let Some(answer) = recall.look(key) {
        return answer;
    }
    let position = key.position();
    if let Some(answer) = needs_all_answer(&position, key.left) {
        return answer;
    }
    if let Some(answer) = top_trumps_answer(&position, key.left) {
        return answer;
    }
    if let Some(answer) = sure_answer(&position, key.left) {
        return answer;
    }
    let answer = search_turn(recall, &Turn::of(&position, key.left, key.shape));
    recall.keep(key, &answer);
    answer
}

// The same at a turn, if the result is open, by trying the cards. After a lead, a hand may head the
// suit led.
#[cycle(search)]
fn search_turn(recall: &mut Recall, turn: &Turn) -> Answer
    requires turn { IsTurn turn.now }
    requires open { decided turn.now.position ≡ None }
    ensures answer { IsAnswer (turn_state turn.now) result }
    ensures limit { recall.new.own.most ≡ recall.old.own.most }
{
    if turn.position.trick.cards.len() == 1 {
        if let Some(answer) = headed_answer(&turn.position, turn.left) {
            return answer;
        }
    }
    let ours = turn.position.is_ours();
    let legal = turn.position.legal_in(turn.left);
    let cards = one_of_equals(turn, legal);
    let answer = best_of(recall, turn, cards, ours);
    if answer.made == ours {
        return answer;
    }
    Answer {
        made: !ours,
        counting: with_lower_equals(turn, legal, answer.counting),
    }
}

// What these cards give the seat to play, which is `ours` or a defender: the answer of the first
// that gives what it wants, or of all.
#[cycle(search)]
fn best_of(recall: &mut Recall, turn: &Turn, cards: CardSet, ours: bool) -> Answer
    requires turn { IsTurn turn.now }
    requires open { decided turn.now.position ≡ None }
    requires legal { IsSubset cards (legal_in (turn_state turn.now)) }
    requires side { is_declarers (to_play turn.now.position) ≡ ours }
    ensures given { IsGiven (turn_state turn.now) cards ours result }
    ensures limit { recall.new.own.most ≡ recall.old.own.most }
{
    // A single card needs no order.
    if let Some(card) = only_of(cards) {
        return search_after(recall, turn, card);
    }
    let mut order = turn.order(recall, cards);
    let mut rest = cards;
    let mut counting = CardSet::empty();
    while let Some(card) = order.first_of(rest) {
        rest = rest.without(card);
        let there = search_after(recall, turn, card);
        if there.made == ours {
            recall.note_best_lead(turn_of(&turn.position), card);
            return there;
        }
        counting = joined(counting, there.counting);
        rest = without_like(rest, card, there.counting);
        turn.complete(&mut order, rest);
    }
    Answer {
        made: !ours,
        counting,
    }
}

// What a legal card gives.
#[cycle(search)]
fn search_after(recall: &mut Recall, turn: &Turn, card: Card) -> Answer
    requires turn { IsTurn turn.now }
    requires open { decided turn.now.position ≡ None }
    requires legal { has_card (legal_in (turn_state turn.now)) card ≡ true }
    ensures closed { IsClosedUp result.counting }
    ensures given { GivesAnswer result.counting (turn_state turn.now) card result.made }
    ensures limit { recall.new.own.most ≡ recall.old.own.most }
{
    let position = &turn.position;
    if position.trick.cards.len() != 3 {
        return search_turn(recall, &turn.after(card));
    }
    let place = position.trick.winning_place(position.trump, card);
    let after = end_trick(position, card, place);
    let shape = turn.shape_after(card);
    let there = search(recall, &after, turn.left.without(card), shape);
    Answer {
        made: there.made,
        counting: with_winner(position, card, place, there.counting),
    }
}
