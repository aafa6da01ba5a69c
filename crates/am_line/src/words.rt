//! The line that says which of the words of a study aren't understood. It takes no memory.
ghost use Rattle.std.specs.Prelude.{◌≡◌, ◌∷◌, [], OnErr, codes};
ghost use Rattle.std.specs.Fmt.{decimal};
ghost use Rattle.std.specs.List.{slice_get};
ghost use Rattle.am_outside.specs.Faults.{Rose};
ghost use Rattle.am_answer.specs.Lines.{joined_pieces};
ghost use Rattle.job_words.specs.Asks.{texts_of};
ghost use Rattle.am_line.specs.Said.{IsSaid, IsWritten};
ghost use Rattle.am_line.specs.Words.{option_text, place_pieces, term_text, word_line};

use crate::line::write_pieces;
use am_outside::{Sink, SinkFailed};
use hand_conditions::TermFault;
use itoa::Buffer;
use job_words::{BadWord, OptionName};

// An option as it is written.
fn option_text(option: OptionName) -> &'static [u8]
    ensures { result.now ≡ option_text option }
{
    match option {
        OptionName::Job => b"--job",
        OptionName::Deal => b"--deal",
        OptionName::Layouts => b"--layouts",
        OptionName::Report => b"--report",
        OptionName::Moves => b"--moves",
        OptionName::Number => b"--number",
        OptionName::Layout => b"--layout",
        OptionName::Switch => b"--switch",
        OptionName::Log => b"--log",
        OptionName::Nodes => b"--nodes",
        OptionName::Workers => b"--workers",
        OptionName::Shards => b"--shards",
        OptionName::Room => b"--room",
        OptionName::NoTable => b"--no-table",
        OptionName::NoCuts => b"--no-cuts",
        OptionName::Form => b"--form",
        OptionName::From => b"--from",
        OptionName::Games => b"--games",
        OptionName::Draw => b"--draw",
        OptionName::Seed => b"--seed",
        OptionName::North => b"--north",
        OptionName::East => b"--east",
        OptionName::South => b"--south",
        OptionName::West => b"--west",
    }
}

// What is wrong with a term.
fn term_text(why: TermFault) -> &'static [u8]
    ensures { result.now ≡ term_text why }
{
    match why {
        TermFault::NotUnderstood => b"\" isn't understood\n",
        TermFault::UpsideDown => b"\" is upside down\n",
    }
}

// Writes the line for a word by its number, counted from 1.
fn write_word<O: Sink>(out: &mut O, number: u64, word: &[u8]) -> Result<(), SinkFailed>
    ensures written { IsWritten (O.told out.old) (joined_pieces (codes "alphamu: word "
        ∷ decimal number ∷ codes " isn't understood: " ∷ word.now ∷ codes "\n" ∷ []))
        (O.told out.new) result }
    ensures failed { OnErr result (Rose (O.faults out.old) (O.faults out.new)) }
{
    let mut digits = Buffer::new();
    let number = digits.format(number).as_bytes();
    write_pieces(
        out,
        &[
            b"alphamu: word ",
            number,
            b" isn't understood: ",
            word,
            b"\n",
        ],
    )
}

// Writes the line for the word at a place, or for a value that is missing at the end.
fn write_place<O: Sink>(out: &mut O, words: &[String], place: usize) -> Result<(), SinkFailed>
    ensures written { IsWritten (O.told out.old)
        (joined_pieces (place_pieces place (slice_get (texts_of words.now) place)))
        (O.told out.new) result }
    ensures failed { OnErr result (Rose (O.faults out.old) (O.faults out.new)) }
{
    if place < words.len() {
        write_word(out, place as u64 + 1, words[place].as_bytes())
    } else {
        write_pieces(out, &[b"alphamu: the last option has no value\n"])
    }
}

// Writes the line for a term of a condition.
fn write_term<O: Sink>(
    out: &mut O,
    option: &[u8],
    term: &[u8],
    end: &[u8],
) -> Result<(), SinkFailed>
    ensures written { IsWritten (O.told out.old) (joined_pieces (codes "alphamu: "
        ∷ option.now ∷ codes ": \"" ∷ term.now ∷ end.now ∷ [])) (O.told out.new) result }
    ensures failed { OnErr result (Rose (O.faults out.old) (O.faults out.new)) }
{
    write_pieces(out, &[b"alphamu: ", option, b": \"", term, end])
}

// Writes the line of what isn't understood in these words.
#[tactic(auto, unfolding(crate::specs::Words::word_line))]
fn write_words<O: Sink>(out: &mut O, words: &[String], bad: &BadWord) -> Result<(), SinkFailed>
    ensures written { IsWritten (O.told out.old) (word_line (texts_of words.now) bad.now)
        (O.told out.new) result }
    ensures failed { OnErr result (Rose (O.faults out.old) (O.faults out.new)) }
{
    match bad {
        BadWord::At(place) => write_place(out, words, *place),
        BadWord::Missing(option) => {
            write_pieces(out, &[b"alphamu: ", option_text(*option), b" is missing\n"])
        }
        BadWord::NotTaken(option) => write_pieces(
            out,
            &[
                b"alphamu: the job doesn't take ",
                option_text(*option),
                b"\n",
            ],
        ),
        BadWord::Value(option) => write_pieces(
            out,
            &[
                b"alphamu: ",
                option_text(*option),
                b" doesn't take this value\n",
            ],
        ),
        BadWord::Term(option, term, why) => {
            write_term(out, option_text(*option), term.bytes(), term_text(*why))
        }
        BadWord::NotDefender(option) => write_pieces(
            out,
            &[
                b"alphamu: ",
                option_text(*option),
                b": no defender sits there\n",
            ],
        ),
    }
}

/// Says what isn't understood in the words of a study. The line is whole, or a proper prefix of it
/// if writing fails.
pub fn refuse_words<E: Sink>(words: &[String], bad: &BadWord, err: &mut E)
    ensures { IsSaid (word_line (texts_of words.now) bad.now) (E.told err.old) (E.told err.new)
        (E.faults err.old) (E.faults err.new) }
{
    let _ = write_words(err, words, bad);
}
