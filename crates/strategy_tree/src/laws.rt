//! The laws of strategies at bridge. A call does nothing: its contract is the law, for every node
//! and every number of moves.
ghost use Rattle.std.specs.Prelude.{◌≡◌, ◌≢◌, ◌⊎◌, ◌↔◌, ℕ, suc, ◌+◌, ◌<◌, ◌≤◌, ◌==◌, true, false, is_some, Some, None, List, [], ◌∷◌, map, replicate, length, sum_by, Contains};
ghost use Rattle.win_vectors.specs.Vectors.{ones_of};
ghost use Rattle.win_vectors.specs.Fronts.{Vector, Dominates, Covers, CoversAll, IsFrontOf, IsReduced, meets, spreads};
ghost use Rattle.win_vectors.specs.Weights.{IsMonotone};
ghost use Rattle.trick_rules.specs.Positions.{State, to_play};
ghost use Rattle.trick_rules.specs.Play.{is_declarers, is_over, decided, makes};
ghost use Rattle.trick_rules.specs.Nodes.{NodeValue, IsNode, states, stops, choices, child, child_mask};
ghost use Rattle.strategy_games.specs.Plans.{Plan, Play, Fits, ends, wins_vector, IsComplete, IsFront, IsBelow, tree_size};
ghost use Rattle.strategy_games.specs.Joins.{unions, joins, AreFronts, WinsByCard, WinsByReply};
ghost use Rattle.strategy_games.specs.Choosing.{Keeps, IsChosenPlan, IsBestCount, IsNamedCard, misses};
ghost use Rattle.strategy_games.specs.Laws.{HasMoreMoves, HasChosenPlan, HasBestCount};
ghost use Rattle.strategy_games.specs.SearchLaws.{HasLeaders};
ghost use Rattle.strategy_games.specs.Misfits.{node_count, first_misfit};
ghost use Rattle.strategy_tree.specs.Bridge.{bridge};
ghost use Rattle.strategy_tree.specs.PlanText.{levels_of, HasReplies, HasCards};
ghost use Rattle.strategy_tree.specs.PlanRead.{most_levels};

/// A strategy ends somewhere in each layout, so that no layout is won because nothing was looked
/// at.
pub fn strategy_ends()
    ensures { (plan : Plan ℕ) (n : NodeValue) (moves : ℕ) (s : State) → IsNode n
        → Fits bridge plan n moves
        → Contains (states n) s → ends bridge plan s ≢ [] }
{}

// ---- fronts

/// Each node has a front with each number of moves, and it isn't empty.
pub fn front_exists()
    ensures exists { (n : NodeValue) (moves : ℕ) → IsNode n
        → (front : List Vector) × IsFront bridge n moves front }
    ensures filled { (n : NodeValue) (moves : ℕ) (front : List Vector) → IsNode n
        → IsFront bridge n moves front
        → front ≢ [] }
{}

/// No node has two fronts with one number of moves.
pub fn front_unique()
    ensures { (n : NodeValue) (moves : ℕ) (front other : List Vector) → IsFront bridge n moves front
        → IsFront bridge n moves other → front ≡ other }
{}

/// Where strategies stop, the front is the one vector of double dummy's results.
pub fn front_at_stop()
    ensures { (n : NodeValue) (moves : ℕ) → stops n moves ≡ true
        → IsFront bridge n moves (map (λ s. makes s) (states n) ∷ []) }
{}

/// At declarer's side the front is the reduced list of the children's fronts with a move less, one
/// after the other.
pub fn front_at_declarer()
    ensures { (n : NodeValue) (moves : ℕ) (fronts : List (List Vector)) (front : List Vector)
        → IsNode n
        → is_over n.position ≡ false → is_declarers (to_play n.position) ≡ true
        → AreFronts bridge n moves (choices n) fronts
        → IsFront bridge n (suc moves) front ↔ IsReduced (unions fronts) front }
{}

/// At a defender the front is the reduced list of all meets of one spread vector of each child's
/// front with the same moves.
pub fn front_at_defender()
    ensures { (n : NodeValue) (moves : ℕ) (fronts : List (List Vector)) (front : List Vector)
        → IsNode n
        → is_over n.position ≡ false → is_declarers (to_play n.position) ≡ false
        → AreFronts bridge n (suc moves) (choices n) fronts
        → IsFront bridge n (suc moves) front
        ↔ IsReduced
        (joins (length n.lefts) (map (λ card. child_mask n card) (choices n)) fronts) front }
{}

/// Each vector of the front with a move more, or with any number of moves more, is dominated by one
/// with fewer, and the best count doesn't rise.
pub fn front_more_moves()
    ensures { HasMoreMoves bridge IsNode }
{}

// ---- the plan that is printed, and the card that is named

/// For a target that the front dominates exactly one plan is the chosen one. It is a strategy, and
/// it wins the first vector of the front that dominates the target.
pub fn chosen_plan_wins()
    ensures { HasChosenPlan bridge IsNode }
{}

/// Exactly one count is the best. No strategy wins more layouts, and the first vector of the front
/// has as many.
pub fn best_count()
    ensures { HasBestCount bridge IsNode }
{}

/// If declarer's side is to play and play isn't over, exactly one card is named, and some strategy
/// that begins with it wins the best count. If the result is decided, it is the first of the
/// choices.
pub fn named_card()
    ensures exists { (n : NodeValue) (moves : ℕ) → IsNode n → is_over n.position ≡ false
        → is_declarers (to_play n.position) ≡ true
        → (card : ℕ) × IsNamedCard bridge n (suc moves) card }
    ensures unique { (n : NodeValue) (moves card other : ℕ) → IsNamedCard bridge n (suc moves) card
        → IsNamedCard bridge n (suc moves) other → card ≡ other }
    ensures wins { (n : NodeValue) (moves card : ℕ) → IsNode n → decided n.position ≡ None
        → is_declarers (to_play n.position) ≡ true → IsNamedCard bridge n (suc moves) card
        → (rest : Plan ℕ) × (best : ℕ) × Fits bridge (Play card rest) n (suc moves)
        × IsBestCount bridge n (suc moves) best
        × (ones_of (wins_vector bridge (Play card rest) n) ≡ best) }
    ensures decided { (n : NodeValue) (moves card : ℕ) (rest : List ℕ) → IsNode n
        → is_some (decided n.position) ≡ true
        → is_declarers (to_play n.position) ≡ true → choices n ≡ card ∷ rest
        → IsNamedCard bridge n (suc moves) card }
{}

// ---- the size of the tree

/// The size of a node's tree is 1 where strategies stop, and else 1 more than the sizes of its
/// children together.
pub fn tree_size_step()
    ensures at_stop { (n : NodeValue) (moves : ℕ) → stops n moves ≡ true
        → tree_size bridge n moves ≡ 1 }
    ensures at_declarer { (n : NodeValue) (moves : ℕ) → IsNode n → decided n.position ≡ None
        → is_declarers (to_play n.position) ≡ true
        → tree_size bridge n (suc moves) ≡ 1 + sum_by
        (λ card. tree_size bridge (child n card) moves) (choices n) }
    ensures at_defender { (n : NodeValue) (moves : ℕ) → IsNode n → decided n.position ≡ None
        → is_declarers (to_play n.position) ≡ false
        → tree_size bridge n (suc moves) ≡ 1 + sum_by
        (λ card. tree_size bridge (child n card) (suc moves)) (choices n) }
{}

/// The size never falls as the moves rise.
pub fn tree_size_monotone()
    ensures { (n : NodeValue) (moves : ℕ)
        → tree_size bridge n moves ≤ tree_size bridge n (suc moves) }
{}

/// A child's size is below its node's.
pub fn tree_size_child()
    ensures at_declarer { (n : NodeValue) (moves card : ℕ) → IsNode n → decided n.position ≡ None
        → is_declarers (to_play n.position) ≡ true → Contains (choices n) card
        → tree_size bridge (child n card) moves < tree_size bridge n (suc moves) }
    ensures at_defender { (n : NodeValue) (moves card : ℕ) → IsNode n → decided n.position ≡ None
        → is_declarers (to_play n.position) ≡ false → Contains (choices n) card
        → tree_size bridge (child n card) (suc moves) < tree_size bridge n (suc moves) }
{}

// ---- when a search may stop early

/// A list covers what every strategy wins if it covers the front, if it covers such a list, and if
/// it covers the front with fewer moves; it still does with more moves. An empty list never does.
pub fn cuts()
    ensures covered { (n : NodeValue) (moves : ℕ) (front alpha : List Vector)
        → IsFront bridge n moves front
        → CoversAll alpha front → IsBelow bridge n moves alpha }
    ensures wider { (n : NodeValue) (moves : ℕ) (alpha beta : List Vector)
        → IsBelow bridge n moves alpha
        → CoversAll beta alpha → IsBelow bridge n moves beta }
    ensures deeper { (n : NodeValue) (moves : ℕ) (less alpha : List Vector) → IsNode n
        → IsFront bridge n moves less → CoversAll alpha less → IsBelow bridge n (suc moves) alpha }
    ensures deeper_by { (n : NodeValue) (moves extra : ℕ) (less alpha : List Vector) → IsNode n
        → IsFront bridge n moves less → CoversAll alpha less
        → IsBelow bridge n (moves + extra) alpha }
    ensures below_deeper { (n : NodeValue) (moves extra : ℕ) (alpha : List Vector) → IsNode n
        → IsBelow bridge n moves alpha → IsBelow bridge n (moves + extra) alpha }
    ensures never { (n : NodeValue) (moves : ℕ) → IsNode n → IsBelow bridge n moves [] → ⊥ }
{}

/// If no layout is won with some moves, none is with more.
pub fn lost()
    ensures { (n : NodeValue) (moves extra : ℕ) → IsNode n
        → IsFront bridge n moves (replicate (length n.lefts) false ∷ [])
        → IsFront bridge n (moves + extra) (replicate (length n.lefts) false ∷ []) }
{}

/// At declarer's side a list covers what every strategy wins if it does so at each child. At a
/// defender it is enough that it covers the front over some of the cards, whose vectors have 1 at
/// each layout that is not joined yet.
pub fn early_cut()
    ensures at_declarer { (n : NodeValue) (moves : ℕ) (alpha : List Vector) → IsNode n
        → decided n.position ≡ None
        → is_declarers (to_play n.position) ≡ true
        → ((card : ℕ) → Contains (choices n) card → IsBelow bridge (child n card) moves alpha)
        → IsBelow bridge n (suc moves) alpha }
    ensures at_defender { (n : NodeValue) (moves : ℕ) (cards : List ℕ)
        (front alpha : List Vector) → IsNode n
        → decided n.position ≡ None → is_declarers (to_play n.position) ≡ false
        → ((card : ℕ) → Contains cards card → Contains (choices n) card)
        → IsFrontOf (WinsByReply bridge n (suc moves) cards) front → CoversAll alpha front
        → IsBelow bridge n (suc moves) alpha }
{}

/// Some cards of declarer's side are enough for the front where what they win covers the front with
/// a move less, and for the best count where one of their vectors has the best count with a move
/// less.
pub fn root_stop()
    ensures same_front { (n : NodeValue) (moves : ℕ) (cards : List ℕ) (front less : List Vector)
        → IsNode n
        → is_over n.position ≡ false → is_declarers (to_play n.position) ≡ true
        → ((card : ℕ) → Contains cards card → Contains (choices n) card)
        → IsFrontOf (WinsByCard bridge n moves cards) front → IsFront bridge n moves less
        → CoversAll front less
        → IsFront bridge n (suc moves) front }
    ensures same_count { (n : NodeValue) (moves best : ℕ) (cards : List ℕ) (vector : Vector)
        → IsNode n
        → is_over n.position ≡ false → is_declarers (to_play n.position) ≡ true
        → ((card : ℕ) → Contains cards card → Contains (choices n) card)
        → WinsByCard bridge n moves cards vector → ones_of vector ≡ best
        → IsBestCount bridge n moves best
        → IsBestCount bridge n (suc moves) best }
{}

/// At a defender one reply is enough for a cut: the node wins nothing that its child doesn't,
/// spread over the layouts of the node.
pub fn one_reply()
    ensures { (n : NodeValue) (moves card : ℕ) (beta alpha : List Vector) → IsNode n
        → decided n.position ≡ None → is_declarers (to_play n.position) ≡ false
        → Contains (choices n) card → IsBelow bridge (child n card) (suc moves) beta
        → CoversAll alpha (spreads (child_mask n card) beta)
        → IsBelow bridge n (suc moves) alpha }
{}

/// The front over some cards of declarer's side is the front if it covers what each other card
/// wins, and also if each choice has one among those cards whose child's front covers what its own
/// child wins. At either side one of equal cards is enough: a choice is left out for one that is
/// legal in the same layouts and whose child has the same front.
pub fn enough_cards()
    ensures cards { (n : NodeValue) (moves : ℕ) (cards : List ℕ) (front : List Vector) → IsNode n
        → is_over n.position ≡ false → is_declarers (to_play n.position) ≡ true
        → ((card : ℕ) → Contains cards card → Contains (choices n) card)
        → ((card : ℕ) → Contains (choices n) card
        → Contains cards card ⊎ IsBelow bridge (child n card) moves front)
        → IsFrontOf (WinsByCard bridge n moves cards) front
        → IsFront bridge n (suc moves) front }
    ensures covering_cards { (n : NodeValue) (moves : ℕ) (cards : List ℕ) (front : List Vector)
        → IsNode n
        → is_over n.position ≡ false → is_declarers (to_play n.position) ≡ true
        → ((card : ℕ) → Contains cards card → Contains (choices n) card)
        → ((card : ℕ) → Contains (choices n) card → (kept : ℕ) × Contains cards kept
        × ((other : List Vector) → IsFront bridge (child n kept) moves other
        → IsBelow bridge (child n card) moves other))
        → IsFrontOf (WinsByCard bridge n moves cards) front
        → IsFront bridge n (suc moves) front }
    ensures equal_cards { (n : NodeValue) (moves : ℕ) (cards : List ℕ) (front : List Vector)
        → IsNode n
        → is_over n.position ≡ false → is_declarers (to_play n.position) ≡ true
        → ((card : ℕ) → Contains cards card → Contains (choices n) card)
        → ((card : ℕ) → Contains (choices n) card → (kept : ℕ) × Contains cards kept
        × ((other : List Vector) → IsFront bridge (child n kept) moves other
        → IsFront bridge (child n card) moves other))
        → IsFrontOf (WinsByCard bridge n moves cards) front
        → IsFront bridge n (suc moves) front }
    ensures equal_replies { (n : NodeValue) (moves : ℕ) (cards : List ℕ) (front : List Vector)
        → IsNode n
        → is_over n.position ≡ false → is_declarers (to_play n.position) ≡ false
        → ((card : ℕ) → Contains cards card → Contains (choices n) card)
        → ((card : ℕ) → Contains (choices n) card → (kept : ℕ) × Contains cards kept
        × (child_mask n card ≡ child_mask n kept)
        × ((other : List Vector) → IsFront bridge (child n kept) (suc moves) other
        → IsFront bridge (child n card) (suc moves) other))
        → IsFrontOf (WinsByReply bridge n (suc moves) cards) front
        → IsFront bridge n (suc moves) front }
{}

/// The first of declarer's cards that keeps the greatest measure so far leads. A card that the
/// front over the earlier ones covers changes nothing and isn't named. In the end, and as soon as
/// the front so far covers the front with a move less or the leader has the best with a move less,
/// the leader has the best and is named. This holds for the count of ones and for each monotone
/// measure.
pub fn leaders()
    ensures { (measure : Vector → ℕ) → IsMonotone measure → HasLeaders bridge IsNode measure }
{}

/// A vector dominates u exactly when none of the vectors that miss a 1 of u dominates it; so these
/// cover what a child wins exactly when its card doesn't keep u.
pub fn misses_tell()
    ensures tell { (u v : Vector) → length v ≡ length u
        → Dominates v u ↔ (Covers (misses u) v → ⊥) }
    ensures below { (n : NodeValue) (moves card : ℕ) (u : Vector) → IsNode (child n card)
        → length (child n card).lefts ≡ length u
        → IsBelow bridge (child n card) moves (misses u) ↔ (Keeps bridge n moves u card → ⊥) }
{}

/// The front is the same with any number of moves more if each of its vectors is won by a plan that
/// stops only at a decided result, for example if the chosen plans are such.
pub fn complete_plans_are_exact()
    ensures complete { (n : NodeValue) (moves extra : ℕ) (front : List Vector) → IsNode n
        → IsFront bridge n moves front
        → ((v : Vector) → Contains front v → (plan : Plan ℕ) × Fits bridge plan n moves
        × IsComplete bridge plan n × (wins_vector bridge plan n ≡ v))
        → IsFront bridge n (moves + extra) front }
    ensures chosen { (n : NodeValue) (moves extra : ℕ) (front : List Vector) → IsNode n
        → IsFront bridge n moves front
        → ((v : Vector) (plan : Plan ℕ) → Contains front v → IsChosenPlan bridge plan n moves v
        → IsComplete bridge plan n)
        → IsFront bridge n (moves + extra) front }
{}

// ---- plans at fault

/// No node of a plan is at fault exactly when the plan is a strategy, and a node at fault is one of
/// its nodes.
pub fn first_misfit()
    ensures none { (plan : Plan ℕ) (n : NodeValue) (moves : ℕ)
        → Fits bridge plan n moves ↔ (first_misfit bridge ◌==◌ plan n moves ≡ None) }
    ensures within { (plan : Plan ℕ) (n : NodeValue) (moves node : ℕ)
        → first_misfit bridge ◌==◌ plan n moves ≡ Some node
        → (1 ≤ node) × (node ≤ node_count plan) }
{}

/// A strategy has at most 64 levels, each of its defender's nodes has 1 to 52 replies, and its
/// cards are of the pack: so what is written of it is read back.
pub fn strategy_reads_back()
    ensures { (plan : Plan ℕ) (n : NodeValue) (moves : ℕ) → IsNode n → Fits bridge plan n moves
        → (levels_of plan ≤ most_levels) × HasReplies plan × HasCards plan }
{}
