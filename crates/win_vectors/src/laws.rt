//! Laws of vectors and of the reduced list. A call does nothing: its contract is the law.

ghost use Rattle.win_vectors.specs.VectorLaws.{DominanceIsPartialOrder, MeetIsGreatest, PrintingOrderIsTotal, SpreadUndoesRestrict};
ghost use Rattle.win_vectors.specs.Laws.{ReducedExists, ReducedIsUnique, ReducedListsTheBest, ReducedIsTheCover, ReducedIgnoresOrder, ReducedOfReducedPart, ReducedOfMeets, ReducedIsItsOwn};
ghost use Rattle.win_vectors.specs.WeightLaws.{EqualWeightsCount, ReportOrderIsTotal};
ghost use Rattle.win_vectors.specs.WeightLaws.{WeightIsMonotone};

/// Dominance is a partial order.
pub fn dominance_is_partial_order()
    ensures { DominanceIsPartialOrder }
{}

/// The printing order is a strict total order, in which a vector stands before those that it
/// dominates.
pub fn printing_order_is_total()
    ensures { PrintingOrderIsTotal }
{}

/// The meet of two vectors is the greatest vector that both dominate.
pub fn meet_is_greatest()
    ensures { MeetIsGreatest }
{}

/// Restricting a vector that was spread by the same mask gives it back, and a spread vector
/// dominates another if the vector itself dominates what the mask picks of it.
pub fn spread_undoes_restrict()
    ensures { SpreadUndoesRestrict }
{}

/// Every list of vectors has a reduced list.
pub fn reduced_exists()
    ensures { ReducedExists }
{}

/// A list of vectors has one reduced list only.
pub fn reduced_is_unique()
    ensures { ReducedIsUnique }
{}

/// The reduced list has the vectors that no other value of the list dominates, each once, in
/// printing order.
pub fn reduced_lists_the_best()
    ensures { ReducedListsTheBest }
{}

/// The reduced list is the only list that is strictly ordered, has no vector that dominates
/// another, and covers exactly what the list covers.
pub fn reduced_is_the_cover()
    ensures { ReducedIsTheCover }
{}

/// The reduced list doesn't depend on the order of the list, nor on how often a vector is in it.
pub fn reduced_ignores_order()
    ensures { ReducedIgnoresOrder }
{}

/// A part of a list may be reduced before the whole is.
pub fn reduced_of_reduced_part()
    ensures { ReducedOfReducedPart }
{}

/// Two lists may be reduced before their meets are.
pub fn reduced_of_meets()
    ensures { ReducedOfMeets }
{}

/// A reduced list is its own reduced list.
pub fn reduced_is_its_own()
    ensures { ReducedIsItsOwn }
{}

/// By any weights the report order is a strict total order, in which a vector stands before those
/// that it dominates.
pub fn report_order_is_total()
    ensures { ReportOrderIsTotal }
{}

/// A vector weighs at least as much as those that it dominates, and counts at least as many ones.
pub fn weight_is_monotone()
    ensures { WeightIsMonotone }
{}

/// With equal weights the weight is the count of ones, and report order is the printing order.
pub fn equal_weights_count()
    ensures { EqualWeightsCount }
{}
