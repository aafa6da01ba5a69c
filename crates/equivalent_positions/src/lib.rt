//! Equivalent positions, as in Ginsberg's partition search: positions in which the cards that count
//! lie alike, and the law that double dummy answers them alike.
//! It builds on the rules of play, on sure tricks and on the laws of double dummy; nothing here
//! runs.
//! Each function's contract is a law, proved from the definitions alone.
#![tactic(auto)]

pub mod laws;
