//! Pieces collected into games.
ghost use Rattle.std.specs.Prelude.{◌≡◌, [], None, List};
ghost use Rattle.pbn_text.specs.Pieces.{Piece, token as found};
ghost use Rattle.pbn_text.specs.Reading.{piece_of, games_after, Closes, Ends, Collects, GivesGames};

use crate::fault::{Syntax, TextFault};
use crate::game::{Game, Tag, Token};
use crate::items::Item;
use std::alloc::Global;
use std::mem;

/// The games that were read, and the one that is being read.
#[derive(Debug, Drop)]
pub struct Collector {
    pub games: Vec<Game>,
    /// The tag pairs of the game that is being read, without its last.
    pub tags: Vec<Tag>,
    pub last: Option<Tag>,
}

impl Collector {
    pub fn new(alloc: Global) -> Self
        ensures games { result.games.items ≡ [] }
        ensures tags { result.tags.items ≡ [] }
        ensures last { result.last ≡ None }
    {
        Collector {
            games: Vec::new(alloc),
            tags: Vec::new(alloc),
            last: None,
        }
    }

    // Puts the last tag pair to the others.
    fn close_tag(&mut self) -> Result<(), TextFault>
        ensures { Closes self.old self.new result }
    {
        if let Some(tag) = self.last.take() {
            self.tags.push(tag)?;
        }
        Ok(())
    }

    // Ends the game that is being read; one without a tag pair is no game.
    fn end_game(&mut self, alloc: Global) -> Result<(), TextFault>
        ensures { Ends self.old self.new result }
    {
        self.close_tag()?;
        if !self.tags.is_empty() {
            let mut tags = mem::replace(&mut self.tags, Vec::new(alloc));
            tags.shrink_to_fit();
            self.games.push(Game { tags })?;
        }
        Ok(())
    }

    // Adds a token to the last tag pair.
    fn add_token(&mut self, token: Token) -> Result<(), TextFault>
        ensures { (left : List Piece) → Collects self.old self.new (found token) left result }
    {
        match &mut self.last {
            Some(tag) => {
                tag.tokens.push(token)?;
                Ok(())
            }
            None => Err(TextFault::Syntax {
                line: token.line,
                kind: Syntax::StrayToken,
            }),
        }
    }

    /// Adds what a text begins with.
    pub fn add(&mut self, alloc: Global, item: Item) -> Result<(), TextFault>
        ensures { (left : List Piece) → Collects self.old self.new (piece_of item) left result }
    {
        match item {
            Item::Passed => Ok(()),
            Item::GameEnd => self.end_game(alloc),
            Item::Tag { name, value, line } => {
                self.close_tag()?;
                self.last = Some(Tag {
                    name,
                    value,
                    line,
                    tokens: Vec::new(alloc),
                });
                Ok(())
            }
            Item::Token(token) => self.add_token(token),
        }
    }

    /// The games, if nothing is left to read.
    pub fn into_games(self, alloc: Global) -> Result<Vec<Game>, TextFault>
        ensures { GivesGames result (games_after self []) }
    {
        let mut collector = self;
        collector.end_game(alloc)?;
        let Collector { games, tags, last } = collector;
        Ok(games)
    }
}
