//! What a text holds: games of tag pairs and tokens.

use byte_text::Text;
use std::marker::Model;

/// A string, or a run of bytes without blanks.
#[derive(Debug, Drop)]
pub struct Token {
    /// The bytes as they are in the file, with a string's quotes and backslashes.
    pub text: Text,
    /// The line on which it begins, from 1.
    pub line: u32,
}

impl Model for Token {
    ghost use Rattle.pbn_text.specs.Games.{TokenValue};

    ghost Value = { TokenValue };

    ghost view = { λ token. record { text = token.text; line = token.line } };
}

/// A tag pair, and the tokens after it up to the next.
#[derive(Debug, Drop)]
pub struct Tag {
    /// Letters, digits and underscores, one at least.
    pub name: Text,
    /// The characters between the quotes, without each backslash that took another.
    pub value: Text,
    /// The line of the opening bracket, from 1.
    pub line: u32,
    pub tokens: Vec<Token>,
}

impl Model for Tag {
    ghost use Rattle.pbn_text.specs.Games.{TagValue};

    ghost Value = { TagValue };

    ghost view = { λ tag. record {
      name = tag.name;
      value = tag.value;
      line = tag.line;
      tokens = tag.tokens.items;
    } };
}

/// A group of tag pairs, in the order of the file. Each game of a file has at least one.
#[derive(Debug, Drop)]
pub struct Game {
    pub tags: Vec<Tag>,
}

impl Model for Game {
    ghost use Rattle.pbn_text.specs.Games.{GameValue};

    ghost Value = { GameValue };

    ghost view = { λ game. record { tags = game.tags.items } };
}
