//! What the list of all layouts comes to. Each function does nothing: its contract is the law,
//! proved from the definitions alone.
ghost use Rattle.std.specs.Prelude.{◌≡◌, ◌≢◌, ℕ, true, Some, List, All, AllPairs, Contains};
ghost use Rattle.pbn_deal.specs.Boards.{BoardValue, IsBoard, tricks_of};
ghost use Rattle.layout_list.specs.declared.line.Layout.{Layout};
ghost use Rattle.layout_list.specs.Verdicts.{hand_after};
ghost use Rattle.layout_maker.specs.Divisions.{is_allowed, layouts_over, IsDivision, ComesBefore};

/// Each layout of the list is a division of the unseen cards, half of them to each defender, that
/// the play allows.
#[tactic(auto, using(crate::proofs::Listed::each_is_a_division, crate::proofs::Listed::each_is_allowed))]
pub fn each_layout_is_an_allowed_division()
    ensures division { (board : BoardValue) (unseen : List ℕ) → IsBoard board
        → board.unseen ≡ Some unseen
        → All (IsDivision unseen (tricks_of board)) (layouts_over board unseen) }
    ensures allowed { (board : BoardValue) (unseen : List ℕ)
        → All (λ layout. is_allowed board unseen layout ≡ true) (layouts_over board unseen) }
{}

/// Each such division that the play allows is in the list.
#[tactic(auto, using(crate::proofs::Listed::each_division_is_there))]
pub fn each_allowed_division_is_listed()
    ensures { (board : BoardValue) (unseen : List ℕ) (layout : Layout) → IsBoard board
        → board.unseen ≡ Some unseen
        → IsDivision unseen (tricks_of board) layout → is_allowed board unseen layout ≡ true
        → Contains (layouts_over board unseen) layout }
{}

/// No layout stands twice in the list.
#[tactic(auto, using(crate::proofs::Listed::none_stands_twice))]
pub fn no_layout_is_listed_twice()
    ensures { (board : BoardValue) (unseen : List ℕ) → IsBoard board → board.unseen ≡ Some unseen
        → AllPairs (λ layout later. layout ≢ later) (layouts_over board unseen) }
{}

/// The layouts are in the order of Left's cards still held, compared card by card in card order.
#[tactic(auto, using(crate::proofs::Listed::in_order_of_what_is_held))]
pub fn layouts_stand_in_the_order_of_lefts_cards()
    ensures { (board : BoardValue) (unseen : List ℕ) → IsBoard board → board.unseen ≡ Some unseen
        → AllPairs
        (λ layout later. ComesBefore (hand_after layout.left board.plays)
        (hand_after later.left board.plays)) (layouts_over board unseen) }
{}
