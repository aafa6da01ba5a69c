//! What a machine word means: a set of places, or a list of bits. It builds on the standard library
//! alone. Definitions and lemmas alone: `card_sets` reads a word as a set of cards, `win_vectors`
//! as a list of bits.
#![tactic(auto)]
