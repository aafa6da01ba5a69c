//! Layouts drawn from all that the play of a board and conditions on the defenders' hands allow. It
//! builds on `layout_maker` for the layouts, on `hand_conditions` for the conditions, and on
//! `drawn_places` for the choice. Its contract promises the exact number of layouts that fit, and
//! that those drawn are different layouts of that list, in its order, as many as were asked for or
//! all.
#![tactic(auto)]

mod drawn;
mod fitting;
mod walk;

pub use drawn::{Drawn, draw_layouts};
pub use fitting::Conditions;
