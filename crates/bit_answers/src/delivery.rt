//! An answer, or the number that says why there is none, in the caller's memory.
ghost use Rattle.std.specs.Prelude.{◌≡◌, ◌<◌, ◌≤◌, IfOk, IfErr, length, take};
ghost use Rattle.bit_answers.specs.Faults.{number_of};

use crate::fault::BitFault;

/// The number that says that the answer is there.
const DONE: u32 = 0;

/// The number that says that the answer needs more room.
const NO_ROOM: u32 = 8;

/// Puts an answer into the caller's memory. 0 says that it is there; any other number is that of
/// the fault, and nothing is written.
pub fn choose<T: Copy>(found: Result<T, BitFault>, out: &mut T) -> u32
    ensures done { IfOk found (λ answer. (result ≡ 0) × (out.new ≡ answer)) }
    ensures refused { IfErr found (λ fault. (result ≡ number_of fault) × (out.new ≡ out.old)) }
{
    match found {
        Ok(answer) => {
            *out = answer;
            DONE
        }
        Err(fault) => fault.code(),
    }
}

/// Puts a list into the caller's memory, if there is room for all of it. 0: the first `written`
/// items of `out` are the list. 8: it has `written` items. Any other number is that of the fault,
/// and `written` is 0. Nothing else is written.
pub fn deliver<T: Copy>(found: Result<Vec<T>, BitFault>, out: &mut [T], written: &mut usize) -> u32
    ensures done { IfOk found (λ all. (length all.items ≤ length out.old) → (result ≡ 0)
        × (written.new ≡ length all.items) × (written.new ≤ length out.new)
        × (take written.new out.new ≡ all.items)) }
    ensures no_room { IfOk found (λ all. (length out.old < length all.items) → (result ≡ 8)
        × (written.new ≡ length all.items) × (out.new ≡ out.old)) }
    ensures refused { IfErr found (λ fault. (result ≡ number_of fault) × (out.new ≡ out.old)
        × (written.new ≡ 0)) }
{
    match found {
        Ok(all) => {
            *written = all.len();
            if all.len() > out.len() {
                return NO_ROOM;
            }
            out[..all.len()].copy_from_slice(&all);
            DONE
        }
        Err(fault) => {
            *written = 0;
            fault.code()
        }
    }
}
