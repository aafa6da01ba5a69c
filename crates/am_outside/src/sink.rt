// Where output is written to.
ghost use Rattle.std.specs.Prelude.{◌≡◌, ℕ, ◌+◌, ◌<◌, ◌≤◌, List, Option, length, take, IfOk, OnOk, OnErr};
ghost use Rattle.std.specs.Io.KnownBytes.{append_known};
ghost use Rattle.am_outside.specs.Faults.{Rose};
ghost use Rattle.am_outside.specs.Sink.{AppendsPart};

use thiserror::Error;

/// A write that was refused.
#[derive(Clone, Copy, Debug, PartialEq, Eq, Error)]
#[error("the output can't be written")]
pub struct SinkFailed;

/// Output, as it is written by the program.
pub trait Sink {
    /// The bytes written so far, if the sink reports them.
    ghost told: { Self → Option (List ℕ) };

    /// How many faults there were. A sink starts at 0, and a count at 2^64 - 1 stays there.
    ghost faults: { Self → ℕ };

    /// How many writes were asked for, if the sink counts them.
    ghost writes: { Self → ℕ } = { λ _. 0 };

    /// Writes the first bytes of a piece, and answers how many: 0 of a piece that has bytes only by
    /// a fault. An error is a fault too, and wrote nothing.
    fn write(&mut self, piece: &[u8]) -> Result<usize, SinkFailed>
        ensures within { IfOk result (λ n. n ≤ length piece.now) }
        ensures appended { IfOk result
            (λ n. told self.new ≡ append_known (told self.old) (take n piece.now)) }
        ensures nothing { OnErr result (told self.new ≡ told self.old) }
        ensures failed { OnErr result (Rose (faults self.old) (faults self.new)) }
        ensures stuck { IfOk result
            (λ n. n ≡ 0 → 0 < length piece.now → Rose (faults self.old) (faults self.new)) }
        ensures never_falls { faults self.old ≤ faults self.new }
        ensures one_write { writes self.new ≤ writes self.old + 1 };
}

/// Writes a whole piece, by at most as many writes as it has bytes. It takes no memory.
/// It ends at the first fault, with a proper prefix written.
pub fn write_whole<O: Sink>(out: &mut O, piece: &[u8]) -> Result<(), SinkFailed>
    ensures whole { OnOk result (O.told out.new ≡ append_known (O.told out.old) piece.now) }
    ensures part { OnErr result (AppendsPart (O.told out.old) piece.now (O.told out.new)) }
    ensures failed { OnErr result (Rose (O.faults out.old) (O.faults out.new)) }
    ensures never_falls { O.faults out.old ≤ O.faults out.new }
    ensures few_writes { O.writes out.new ≤ O.writes out.old + length piece.now }
{
    let mut written = 0;
    while written < piece.len() {
        let taken = out.write(&piece[written..])?;
        if taken == 0 {
            return Err(SinkFailed);
        }
        written += taken;
    }
    Ok(())
}
