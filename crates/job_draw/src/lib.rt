//! The job `draw`: layouts drawn from all that a board allows, as a layout file. It builds on
//! `layout_draw` for the layouts, on `am_inputs` for the board, and on `am_report` for the text.
//! Its contract promises the text of layouts that fit and their exact number, or why there are none.
#![tactic(auto)]

mod draw;
mod refusal;
mod seats;
mod text;

pub use draw::draw_file;
pub use refusal::DrawRefusal;
