//! What a report says, in the words of the game. A call does nothing: its contract is the law.
ghost use Rattle.std.specs.Prelude.{◌≡◌, ◌≤◌, ℕ, Bool, true, List, Some, Ok, Result, map, Contains};
ghost use Rattle.win_vectors.specs.Weights.{weight_of};
ghost use Rattle.win_vectors.specs.Fronts.{Covers};
ghost use Rattle.trick_rules.specs.Nodes.{NodeValue, IsNode};
ghost use Rattle.strategy_games.specs.Plans.{Plan, Fits, wins_vector};
ghost use Rattle.strategy_tree.specs.Bridge.{bridge};
ghost use Rattle.am_outside.specs.Shelf.{Files};
ghost use Rattle.job_words.specs.declared.asks.Search.{Search};
ghost use Rattle.job_words.specs.declared.asks.Ask.TheVariants.{Made};
ghost use Rattle.job_words.specs.Words.{words_read};
ghost use Rattle.am_report.specs.Answers.{SolveAnswerValue, EntryValue};
ghost use Rattle.am_answer.specs.declared.root.Root.{Root};
ghost use Rattle.am_answer.specs.declared.status.Status.{Status};
ghost use Rattle.am_answer.specs.Tasks.{Playing, Solve, Card, Prove, Boards};
ghost use Rattle.am_answer.specs.Tasks as tasks;
ghost use Rattle.am_answer.specs.Answers.{answer};
ghost use Rattle.am_answer.specs.Matches.{IsPlayed};
ghost use Rattle.am_match.specs.Defences.{Sitter};
ghost use Rattle.am_answer.specs.Reports.{IsSolveAnswer, IsText};

/// The plan that is printed below a vector is a strategy, and wins exactly that vector: in each
/// layout it is made against every line of legal defence, by defenders who know the layout and the
/// plan, or else it isn't.
pub fn printed_plan_wins()
    ensures { (n : NodeValue) (weights : List ℕ) (moves : ℕ) (found : SolveAnswerValue)
        (entry : EntryValue) → IsNode n → IsSolveAnswer n weights moves found
        → Contains found.entries entry
        → Fits bridge entry.plan n moves × (wins_vector bridge entry.plan n ≡ entry.vector) }
{}

/// Every strategy with that many moves of declarer's side, followed by double dummy, wins a vector
/// that a printed one dominates, and no greater weight than the one that is printed.
pub fn printed_vectors_cover()
    ensures covers { (n : NodeValue) (weights : List ℕ) (moves : ℕ) (found : SolveAnswerValue)
        (plan : Plan ℕ) → IsSolveAnswer n weights moves found
        → Fits bridge plan n moves
        → Covers (map (λ e. e.vector) found.entries) (wins_vector bridge plan n) }
    ensures most { (n : NodeValue) (weights : List ℕ) (moves : ℕ) (found : SolveAnswerValue)
        (plan : Plan ℕ) → IsSolveAnswer n weights moves found
        → Fits bridge plan n moves
        → weight_of weights (wins_vector bridge plan n) ≤ found.weight }
{}

/// A match in a layout at which the vector has a 1 is made, whoever the defenders are and whoever
/// comes in.
pub fn a_bit_of_1_is_made()
    ensures { (n : NodeValue) (weights : List ℕ) (moves : ℕ) (playing : Playing)
        (table later : List Sitter) (cards : List ℕ) (made : Bool) → IsNode n
        → IsPlayed n weights moves playing table later true cards made → made ≡ true }
{}

/// A root and a number of moves have one report, one card and one log, a number has one summary of
/// its problem, and all games of a deal file have one text of their reports: no number of workers,
/// size of the table, rule of cuts or number of nodes changes a byte.
pub fn one_text()
    ensures solve { (root : Root) (moves : ℕ) (search other : Search) (text more : List ℕ)
        → IsText (Solve root moves search) text → IsText (Solve root moves other) more
        → text ≡ more }
    ensures card { (root : Root) (moves : ℕ) (search other : Search) (text more : List ℕ)
        → IsText (Card root moves search) text → IsText (Card root moves other) more
        → text ≡ more }
    ensures prove { (root : Root) (moves nodes others : ℕ) (text more : List ℕ)
        → IsText (Prove root moves nodes) text → IsText (Prove root moves others) more
        → text ≡ more }
    ensures made { (number : ℕ) (root : Root) (search other : Search) (text more : List ℕ)
        → IsText (tasks.Made number root search) text → IsText (tasks.Made number root other) more
        → text ≡ more }
    ensures boards { (roots : List (Result Root Status)) (moves : ℕ) (search other : Search)
        (text more : List ℕ) → IsText (Boards roots moves search) text
        → IsText (Boards roots moves other) more → text ≡ more }
{}

/// Words that ask for the problem of a number are never refused: its texts are read as files are,
/// and lead to a root.
pub fn made_problems_are_accepted()
    ensures { (words : List (List ℕ)) (files : Files) (number : ℕ) (search : Search)
        → words_read words ≡ Some (Made number search)
        → (root : Root) × (answer words files ≡ Ok (tasks.Made number root search)) }
{}
