ghost use Rattle.std.specs.Prelude.{◌≡◌, ℕ, ◌+◌, ◌<◌, ◌≤◌, List, length, take, Option, vec_len, IfOk, OnOk, OnErr, IfSome, IsErrOf};
ghost use Rattle.std.specs.Io.KnownBytes.{IsAtEnd};
ghost use Rattle.caja_io.specs.Count.{Rose};
ghost use Rattle.caja_io.specs.Source.{Takes, TakesUpTo, IsEmptied};

use crate::{Failed, InputFault};
use std::alloc::Global;

/// Something to read bytes from.
pub trait Source {
    /// The bytes that are left to read, where the source tells them.
    ghost left: { Self → Option (List ℕ) };

    /// How often a read failed. The count never falls, and may stay at 2^64 - 1.
    ghost faults: { Self → ℕ };

    /// Reads into the front of the slice, and answers how many bytes it gave. An answer of 0 at a slice that isn't
    /// empty is the end of the input.
    ///
    /// # Errors
    ///
    /// `Failed` where the read fails. Then it took nothing, and what stands in the slice is open.
    fn read(&mut self, into: &mut [u8]) -> Result<usize, Failed>
        ensures bound { IfOk result (λ n. n ≤ length into.old) }
        ensures takes { IfOk result (λ n. Takes (left self.old) (left self.new) (take n into.new)) }
        ensures end { IfOk result (λ n. n ≡ 0 → 0 < length into.old → IsAtEnd (left self.new)) }

        ensures failed { OnErr result (Rose (faults self.old) (faults self.new)) }
        ensures took_nothing { OnErr result (left self.new ≡ left self.old) }
        ensures never_falls { faults self.old ≤ faults self.new };
}

// How many bytes one read asks for at most.
const PIECE: usize = 4096;

/// Reads all that is left, if that is at most `limit` bytes. It takes at most `limit` + 1 bytes in all.
///
/// # Errors
///
/// `Failed` where a read fails, `TooLong` where more than `limit` bytes come, `Memory` where memory runs out.
pub fn read_all<S: Source>(
    alloc: Global,
    source: &mut S,
    limit: usize,
) -> Result<Vec<u8>, InputFault>
    ensures all { IfOk result (λ bytes. IfSome (S.left source.old) (λ left. bytes.items ≡ left)) }
    ensures end { OnOk result (IsEmptied (S.left source.old) (S.left source.new)) }
    ensures within { IfOk result (λ bytes. vec_len bytes ≤ limit) }

    ensures too_long { IsErrOf result InputFault.TooLong
        → IfSome (S.left source.old) (λ left. limit < length left) }
    ensures failed { IsErrOf result InputFault.Failed
        → Rose (S.faults source.old) (S.faults source.new) }

    // With any answer.
    ensures takes { TakesUpTo (limit + 1) (S.left source.old) (S.left source.new) }
    ensures never_falls { S.faults source.old ≤ S.faults source.new }
{
    let mut all = Vec::new(alloc);
    let mut buffer = [0u8; PIECE];
    loop {
        let room = limit - all.len();
        // One byte past the limit tells that the input is too long.
        let asked = room.min(PIECE - 1) + 1;
        let count = source.read(&mut buffer[..asked])?;
        if count == 0 {
            return Ok(all);
        }
        if room < count {
            return Err(InputFault::TooLong);
        }
        all.extend_from_slice(&buffer[..count])?;
    }
}
