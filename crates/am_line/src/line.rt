//! The line to standard error that says why a run was refused. It takes no memory.
ghost use Rattle.std.specs.Prelude.{◌≡◌, ◌≤◌, [], ◌∷◌, map, codes, if◌then◌else◌, OnErr};
ghost use Rattle.std.specs.Fmt.{decimal};
ghost use Rattle.am_outside.specs.Faults.{Rose};
ghost use Rattle.am_answer.specs.Lines.{game_spent_line, joined_pieces, layouts_line, make_line};
ghost use Rattle.am_answer.specs.Lines.{refuted_line, spent_line, status_line};
ghost use Rattle.am_line.specs.Said.{IsSaid, IsWritten};

use crate::names::{deal_name, file_name, kind_name, report_name};
use am_answer::{Place, Status};
use am_outside::{Sink, SinkFailed, write_whole};
use card_letters::letters_of;
use card_sets::Card;
use itoa::Buffer;
use layout_list::LayoutFault;
use layout_maker::MakeFault;

/// Writes pieces one after another, up to the first fault.
pub(crate) fn write_pieces<O: Sink>(out: &mut O, pieces: &[&[u8]]) -> Result<(), SinkFailed>
    ensures written { IsWritten (O.told out.old) (joined_pieces (map (λ p. p.now) pieces.now))
        (O.told out.new) result }
    ensures failed { OnErr result (Rose (O.faults out.old) (O.faults out.new)) }
    ensures never_falls { O.faults out.old ≤ O.faults out.new }
{
    for piece in pieces {
        write_whole(out, piece)?;
    }
    Ok(())
}

// Writes a number between two texts.
fn write_number<O: Sink>(
    out: &mut O,
    before: &[u8],
    number: u32,
    after: &[u8],
) -> Result<(), SinkFailed>
    ensures written { IsWritten (O.told out.old)
        (joined_pieces (before.now ∷ decimal number ∷ after.now ∷ [])) (O.told out.new) result }
    ensures failed { OnErr result (Rose (O.faults out.old) (O.faults out.new)) }
{
    let mut digits = Buffer::new();
    write_pieces(out, &[before, digits.format(number).as_bytes(), after])
}

// Writes the line of a file, by its number, and the name of what is wrong there.
fn write_named<O: Sink>(
    out: &mut O,
    before: &[u8],
    line: u32,
    name: &[u8],
) -> Result<(), SinkFailed>
    ensures written { IsWritten (O.told out.old)
        (joined_pieces (before.now ∷ decimal line ∷ codes ": " ∷ name.now ∷ codes "\n" ∷ []))
        (O.told out.new) result }
    ensures failed { OnErr result (Rose (O.faults out.old) (O.faults out.new)) }
{
    let mut digits = Buffer::new();
    let number = digits.format(line).as_bytes();
    write_pieces(out, &[before, number, b": ", name, b"\n"])
}

// Writes the line for a layout file that isn't taken.
fn write_layouts<O: Sink>(out: &mut O, fault: LayoutFault) -> Result<(), SinkFailed>
    ensures written { IsWritten (O.told out.old) (joined_pieces (layouts_line fault))
        (O.told out.new) result }
    ensures failed { OnErr result (Rose (O.faults out.old) (O.faults out.new)) }
{
    let mut number = Buffer::new();
    match fault {
        LayoutFault::BadLine(line, fault) => write_pieces(
            out,
            &[
                b"alphamu: layouts line ",
                number.format(line).as_bytes(),
                b": BadLine ",
                deal_name(fault),
                b"\n",
            ],
        ),
        LayoutFault::OtherHands(line) => {
            write_number(out, b"alphamu: layouts line ", line, b": OtherHands\n")
        }
        LayoutFault::TooMany(line) => {
            write_number(out, b"alphamu: layouts line ", line, b": TooMany\n")
        }
        LayoutFault::BadWeight(line) => {
            write_number(out, b"alphamu: layouts line ", line, b": BadWeight\n")
        }
        LayoutFault::NoneLeft => write_pieces(out, &[b"alphamu: layouts: NoneLeft\n"]),
        LayoutFault::Memory => write_pieces(out, &[b"alphamu: out of memory\n"]),
    }
}

// Writes the line for a plan of a report that is at fault.
fn write_refuted<O: Sink>(out: &mut O, plan: u32, place: Place) -> Result<(), SinkFailed>
    ensures written { IsWritten (O.told out.old) (joined_pieces (refuted_line plan place))
        (O.told out.new) result }
    ensures failed { OnErr result (Rose (O.faults out.old) (O.faults out.new)) }
{
    let mut plan_digits = Buffer::new();
    let number = plan_digits.format(plan).as_bytes();
    let mut digits = Buffer::new();
    match place {
        Place::Head => write_pieces(out, &[b"alphamu: plan ", number, b": head differs\n"]),
        Place::Width => write_pieces(out, &[b"alphamu: plan ", number, b": width differs\n"]),
        Place::Weight => write_pieces(out, &[b"alphamu: plan ", number, b": weight differs\n"]),
        Place::Node(node) => write_pieces(
            out,
            &[
                b"alphamu: plan ",
                number,
                b": not a strategy at node ",
                digits.format(node).as_bytes(),
                b"\n",
            ],
        ),
        Place::Layout(layout, bit) => write_pieces(
            out,
            &[
                b"alphamu: plan ",
                number,
                b": layout ",
                digits.format(layout).as_bytes(),
                bit_end(bit),
            ],
        ),
    }
}

// The end of a line that says whether a plan wins a layout.
fn bit_end(bit: bool) -> &'static [u8]
    ensures { result.now ≡ (if bit then codes " is 1\n" else codes " is 0\n") }
{
    if bit { b" is 1\n" } else { b" is 0\n" }
}

// Writes the line for a board whose layouts aren't listed.
fn write_make<O: Sink>(out: &mut O, fault: MakeFault) -> Result<(), SinkFailed>
    ensures written { IsWritten (O.told out.old) (joined_pieces (make_line fault))
        (O.told out.new) result }
    ensures failed { OnErr result (Rose (O.faults out.old) (O.faults out.new)) }
{
    let mut number = Buffer::new();
    match fault {
        MakeFault::TooManyFit(count) => write_pieces(
            out,
            &[
                b"alphamu: ",
                number.format(count).as_bytes(),
                b" layouts fit\n",
            ],
        ),
        MakeFault::NoneFit => write_pieces(out, &[b"alphamu: 0 layouts fit\n"]),
        MakeFault::NotShown => write_pieces(out, &[b"alphamu: defenders not shown\n"]),
        MakeFault::Memory => write_pieces(out, &[b"alphamu: out of memory\n"]),
    }
}

// Writes the line of a status.
#[tactic(auto, unfolding(am_answer::specs::Lines::status_line))]
pub(crate) fn write_line<O: Sink>(out: &mut O, status: &Status) -> Result<(), SinkFailed>
    ensures written { IsWritten (O.told out.old) (status_line status.now) (O.told out.new) result }
    ensures failed { OnErr result (Rose (O.faults out.old) (O.faults out.new)) }
{
    match status {
        Status::Done => write_pieces(out, &[]),
        Status::Refuted(plan, place) => write_refuted(out, *plan, *place),
        Status::BadWords => write_pieces(out, &[b"alphamu: usage: --job JOB [OPTIONS]\n"]),
        Status::Unread(file) => {
            write_pieces(out, &[b"alphamu: cannot read ", file_name(*file), b"\n"])
        }
        Status::BadPbn(line, kind) => {
            write_named(out, b"alphamu: deal line ", *line, kind_name(*kind))
        }
        Status::BadLayouts(fault) => write_layouts(out, *fault),
        Status::NoTurn => write_pieces(out, &[b"alphamu: no card to choose\n"]),
        Status::Spent(card) => write_spent(out, *card),
        Status::Unwritten => write_pieces(out, &[b"alphamu: cannot write\n"]),
        Status::Memory => write_pieces(out, &[b"alphamu: out of memory\n"]),
        Status::TooLong(file) => {
            write_pieces(out, &[b"alphamu: ", file_name(*file), b" too long\n"])
        }
        Status::BadReport(line, kind) => {
            write_named(out, b"alphamu: report line ", *line, report_name(*kind))
        }
        Status::BadMake(fault) => write_make(out, *fault),
        Status::NoLayout(layout) => {
            write_number(out, b"alphamu: no layout ", u32::from(*layout), b"\n")
        }
        Status::BadLog(line) => write_number(out, b"alphamu: log file line ", *line, b"\n"),
        Status::Unproved(line) => {
            write_number(out, b"alphamu: log line ", *line, b" not proved\n")
        }
        Status::GameSpent(game, card) => write_game_spent(out, *game, *card),
        Status::TooManyGames(games) => write_number(out, b"alphamu: ", *games, b" games\n"),
    }
}

// Writes the line for a root card whose tree is too large.
fn write_spent<O: Sink>(out: &mut O, card: Card) -> Result<(), SinkFailed>
    ensures written { IsWritten (O.told out.old) (joined_pieces (spent_line card))
        (O.told out.new) result }
    ensures failed { OnErr result (Rose (O.faults out.old) (O.faults out.new)) }
{
    let letters = letters_of(card);
    write_pieces(out, &[b"alphamu: nodes spent at ", &letters, b"\n"])
}

// Writes the line for a root card whose tree is too large, in the game of a number.
fn write_game_spent<O: Sink>(out: &mut O, game: u16, card: Card) -> Result<(), SinkFailed>
    ensures written { IsWritten (O.told out.old) (joined_pieces (game_spent_line game card))
        (O.told out.new) result }
    ensures failed { OnErr result (Rose (O.faults out.old) (O.faults out.new)) }
{
    let mut digits = Buffer::new();
    let number = digits.format(game).as_bytes();
    let letters = letters_of(card);
    write_pieces(
        out,
        &[
            b"alphamu: game ",
            number,
            b": nodes spent at ",
            &letters,
            b"\n",
        ],
    )
}

/// Says why a run was refused, and hands the status back. The line is whole, or a proper prefix of
/// it where writing fails.
pub fn refuse<E: Sink>(status: Status, err: &mut E) -> Status
    ensures same { result ≡ status }
    ensures said { IsSaid (status_line status) (E.told err.old) (E.told err.new) (E.faults err.old)
        (E.faults err.new) }
{
    let _ = write_line(err, &status);
    status
}
