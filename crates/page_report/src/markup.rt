//! The markup of a page's own, for the layouts that are left out.

pub const DROPPED: &[u8] = b"<p class='note'>Layout ";

pub const AT_CARD: &[u8] = b" of the file is left out: at card ";

pub const DROPPED_END: &[u8] = b"</section>\n";
