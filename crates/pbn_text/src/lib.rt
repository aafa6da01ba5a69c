//! PBN text: bytes as games of tag pairs and tokens. It builds on `byte_text`, whose texts hold
//! what was read. Its contract promises that what the grammar accepts is read as the grammar says,
//! and that all else is refused with the first fault and its line.
#![tactic(auto)]

mod collector;
mod fault;
mod game;
mod items;
mod reader;
mod reading;
mod scan;

pub use fault::{Syntax, TextFault};
pub use game::{Game, Tag, Token};
pub use reading::games;
