//! Text for pages of HTML: a file's text, written so that none of it is taken for markup.
//! It builds on `byte_text`. Its contract promises the escaped text; `laws` says that it has no
//! sign of markup except in names, and that it is read back.
#![tactic(auto)]

mod escape;
pub mod laws;
mod page;

pub use escape::push_escaped;
pub use page::Page;
