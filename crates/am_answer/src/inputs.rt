//! What the words ask for, once the files that they name are read.
ghost use Rattle.std.specs.Prelude.{◌≡◌};

use byte_text::Text;
use job_words::Ask;
use pbn_text::Game;
use std::marker::Model;

/// The games of a deal file, and the text of a layout file for each of them, in order.
#[derive(Drop)]
pub struct GameFiles {
    games: Vec<Game>,
    layouts: Vec<Text>,
}

impl Model for GameFiles {
    ghost use Rattle.am_answer.specs.Games.{GameFilesValue};

    ghost Value = { GameFilesValue };

    ghost view = { λ files. record { games = files.games.items; layouts = files.layouts.items } };
}

impl GameFiles {
    /// These games and texts.
    pub fn new(games: Vec<Game>, layouts: Vec<Text>) -> GameFiles
        ensures { result ≡ record { games = games.items; layouts = layouts.items } }
    {
        GameFiles { games, layouts }
    }

    /// The games, in order.
    pub fn games(&self) -> &[Game]
        ensures { result.now ≡ self.now.games }
    {
        self.games.as_slice()
    }

    /// The texts, in the order of their games.
    pub fn layouts(&self) -> &[Text]
        ensures { result.now ≡ self.now.layouts }
    {
        self.layouts.as_slice()
    }
}

/// What the words ask for, with the files that they name.
pub type Inputs = Ask<Text, GameFiles>;
