//! Laws of joins. A call does nothing: its contract is the law.

ghost use Rattle.front_join.specs.Joins.{JoinedCovers, JoinedInAnyOrder};

/// A join covers a vector if each child's front covers the part of it that the child has.
pub fn joined_covers()
    ensures { JoinedCovers }
{}

/// The reduced list of a join doesn't depend on the order of the children.
pub fn joined_in_any_order()
    ensures { JoinedInAnyOrder }
{}
