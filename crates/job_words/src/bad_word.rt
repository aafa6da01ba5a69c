//! What isn't understood in words.

use byte_text::Text;
use hand_conditions::TermFault;

/// The options, by name.
#[derive(Clone, Copy, Debug, PartialEq, Eq)]
pub enum OptionName {
    Job,
    Deal,
    Layouts,
    Report,
    Moves,
    Number,
    Layout,
    Switch,
    Log,
    Nodes,
    Workers,
    Shards,
    Room,
    NoTable,
    NoCuts,
    Form,
    From,
    Games,
    Draw,
    Seed,
    North,
    East,
    South,
    West,
}

/// What isn't understood in words: the first fault in them.
#[derive(Debug, Drop)]
pub enum BadWord {
    /// The word of this number, counted from 0: no option or value can stand there, or none of that
    /// name. It is the number of words if the value of the last option is missing.
    At(usize),
    /// The words lack this option.
    Missing(OptionName),
    /// The job takes no such option.
    NotTaken(OptionName),
    /// The option takes no such value.
    Value(OptionName),
    /// A condition on a hand, told by this option, has a term that isn't understood, as it stands
    /// between the commas, and why.
    Term(OptionName, Text, TermFault),
    /// The option tells a condition on a hand of declarer's side.
    NotDefender(OptionName),
}
