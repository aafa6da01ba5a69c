//! Layouts that nobody had to write: all layouts of a board that the play allows, and a whole
//! problem made from a number. It builds on `pbn_deal` for boards and the Deal form, and on
//! `layout_list` for what the play says of a layout. Its contract promises every layout once, in
//! order, or their exact number, and the two texts of a problem byte for byte.
#![tactic(auto)]

mod allowed;
mod dividing;
mod fault;
mod generator;
pub mod laws;
mod list;
mod made;

pub use dividing::Choices;
pub use fault::MakeFault;
pub use layout_list::Layout;
pub use list::{all_layouts, allowed_choices};
pub use made::{Made, made_problem, made_problems_are_accepted};
