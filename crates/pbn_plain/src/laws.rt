//! The law of games that are written plainly, and an example. A call does nothing: its contract is
//! the law, proved from the definitions alone.
ghost use Rattle.std.specs.Prelude.{◌≡◌, ℕ, true, List, ◌++◌, Ok};
ghost use Rattle.pbn_text.specs.Grammar.{games_read};
ghost use Rattle.pbn_plain.specs.PlainText.{PlainGroup, byte_order_mark, plain_text, IsTextOf};
ghost use Rattle.pbn_plain.specs.WellWritten.{is_well_written};
ghost use Rattle.pbn_plain.specs.Numbered.{numbered};
ghost use Rattle.pbn_plain.specs.Example.{example, example_text, example_games};

/// Games that are written plainly are read back as the same games, each tag pair and token with its
/// line; the last line may lack its end, and a byte order mark may stand before the text.
pub fn plain_text_reads_back()
    ensures plain { (groups : List PlainGroup) (text : List ℕ) → is_well_written groups ≡ true
        → IsTextOf text groups → games_read text ≡ Ok (numbered groups) }
    ensures marked { (groups : List PlainGroup) (text : List ℕ) → is_well_written groups ≡ true
        → IsTextOf text groups → games_read (byte_order_mark ++ text) ≡ Ok (numbered groups) }
{}

/// A text of two games: its bytes as they are written, and the games as which they are read.
pub fn example_reads_back()
    ensures written { is_well_written example ≡ true }
    ensures text { plain_text example ≡ example_text }
    ensures games { numbered example ≡ example_games }
    ensures read { games_read example_text ≡ Ok example_games }
{}
