//! What is won at a node if some of its layouts are left out. The functions do nothing: their
//! contracts are the laws.
ghost use Rattle.alphamu_core.specs.Parts.{PartsHaveTheirFront, LostLayoutsMayBeLeftOut};

/// What can be won at a node, cut down to some of its layouts, is what can be won there if those
/// are all the layouts.
pub fn parts_have_their_front()
    ensures { PartsHaveTheirFront }
{}

/// If double dummy loses each layout that is left out, the front of the node is that of the rest,
/// with 0 at the layouts that are left out.
pub fn lost_layouts_may_be_left_out()
    ensures { LostLayoutsMayBeLeftOut }
{}
