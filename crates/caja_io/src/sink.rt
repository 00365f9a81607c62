ghost use Rattle.std.specs.Prelude.{◌≡◌, ℕ, ◌<◌, ◌≤◌, List, [], length, take, Option, IfOk, OnOk, OnErr, IsOk, IsErrOf};
ghost use Rattle.caja_io.specs.Count.{Rose};
ghost use Rattle.caja_io.specs.Sink.{Appends, AppendsPart, count_empty};

use crate::{Failed, OutputFault};

/// Something to write bytes to.
pub trait Sink {
    /// The bytes that were written, where the sink tells them.
    ghost written: { Self → Option (List ℕ) };

    /// How often a write failed. The count never falls, and may stay at 2^64 - 1.
    ghost faults: { Self → ℕ };

    /// How often a write took nothing of a piece that isn't empty. It is a count like that of faults.
    ghost empty_writes: { Self → ℕ };

    /// Writes the front of the piece, and answers how many bytes it took.
    ///
    /// # Errors
    ///
    /// `Failed` where the write fails. Then it appended nothing.
    fn write(&mut self, piece: &[u8]) -> Result<usize, Failed>
        ensures bound { IfOk result (λ n. n ≤ length piece.now) }
        ensures appends { IfOk result (λ n. Appends (written self.old) (written self.new) (take n piece.now)) }
        ensures empty { IfOk result (λ n. n ≡ 0 → 0 < length piece.now
            → Rose (empty_writes self.old) (empty_writes self.new)) }

        ensures failed { OnErr result (Rose (faults self.old) (faults self.new)) }
        ensures appended_nothing { OnErr result (written self.new ≡ written self.old) }
        ensures faults_never_fall { faults self.old ≤ faults self.new }
        ensures empty_writes_never_fall { empty_writes self.old ≤ empty_writes self.new };
}

/// Writes all the bytes. Where there is none, it makes no write.
///
/// # Errors
///
/// `Failed` where a write fails, `NoRoom` where a write takes nothing of a piece that isn't empty.
pub fn write_all<K: Sink>(sink: &mut K, bytes: &[u8]) -> Result<(), OutputFault>
    ensures all { OnOk result (Appends (K.written sink.old) (K.written sink.new) bytes.now) }
    ensures part { OnErr result (AppendsPart (K.written sink.old) (K.written sink.new) bytes.now) }
    ensures none { bytes.now ≡ [] → IsOk result × (sink.new ≡ sink.old) }

    ensures failed { IsErrOf result OutputFault.Failed
        → Rose (K.faults sink.old) (K.faults sink.new) }
    ensures no_room { IsErrOf result OutputFault.NoRoom
        → Rose (K.empty_writes sink.old) (K.empty_writes sink.new) }
    ensures succeeds { ¬ (Rose (K.faults sink.old) (K.faults sink.new))
        → ¬ (Rose (K.empty_writes sink.old) (K.empty_writes sink.new)) → IsOk result }

    ensures faults_never_fall { K.faults sink.old ≤ K.faults sink.new }
    ensures empty_writes_never_fall { K.empty_writes sink.old ≤ K.empty_writes sink.new }
{
    let mut at = 0;
    while at < bytes.len() {
        let count = sink.write(&bytes[at..])?;
        if count == 0 {
            return Err(OutputFault::NoRoom);
        }
        at += count;
    }
    Ok(())
}

// The count of empty writes after a write that took so many bytes of the piece.
pub(crate) fn count_empty(count: u64, piece: &[u8], taken: usize) -> u64
    ensures { result ≡ count_empty count piece.now taken }
{
    if taken == 0 && !piece.is_empty() {
        count.saturating_add(1)
    } else {
        count
    }
}
