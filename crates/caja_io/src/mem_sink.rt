ghost use Rattle.std.specs.Prelude.{◌≡◌, ◌-◌, ◌≤◌, ◌<◌, ◌↔◌, [], length, take, min, vec_len, Some, IsErr, IfOk, OnErr, MatchResult, Contains};
ghost use Rattle.caja_io.specs.Count.{Rose};
ghost use Rattle.caja_io.specs.Sink.{Appends};
ghost use Rattle.caja_io.specs.Memory.{after_write, after_failed_write};

use crate::memory::{copy_at, is_listed};
use crate::sink::count_empty;
use crate::{Failed, Sink};
use std::marker::Model;

/// A sink that keeps what is written in the bytes of a room, from the first on. A write fails exactly where `fail` lists
/// it; the writes are counted from 0, in 64 bits, and the count stays at its last value. Any other write takes as many
/// bytes as `piece`, the rest of the room and the caller's piece allow.
#[derive(Debug, Drop)]
pub struct MemSink {
    room: Vec<u8>,
    len: usize,
    piece: usize,
    fail: Vec<u32>,
    writes: u64,
    faults: u64,
    empty_writes: u64,
}

impl Model for MemSink {
    ghost use Rattle.std.specs.Prelude.{◌≤◌, take, vec_len};
    ghost use Rattle.caja_io.specs.Memory.{Output};

    ghost Value = { Output };

    ghost view = { λ s. record {
      written = take s.len s.room.items;
      room = vec_len s.room;
      piece = s.piece;
      fail = s.fail.items;
      writes = s.writes;
      faults = s.faults;
      empty_writes = s.empty_writes;
    } };

    ghost invariant = { λ s. s.len ≤ vec_len s.room };
}

impl MemSink {
    /// A sink with nothing written, which has room for as many bytes as `room` has, takes at most `piece` bytes at a
    /// write, and fails at the writes in `fail`.
    pub fn new(piece: usize, room: Vec<u8>, fail: Vec<u32>) -> MemSink
        ensures { result ≡ record {
          written = [];
          room = vec_len room;
          piece = piece;
          fail = fail.items;
          writes = 0;
          faults = 0;
          empty_writes = 0;
        } }
    {
        MemSink {
            room,
            len: 0,
            piece,
            fail,
            writes: 0,
            faults: 0,
            empty_writes: 0,
        }
    }

    /// All that was written so far.
    pub fn written(&self) -> &[u8]
        ensures { result.now ≡ self.now.written }
    {
        &self.room[..self.len]
    }
}

impl Sink for MemSink {
    ghost written = { λ s. Some s.written };

    ghost faults = { λ s. s.faults };

    ghost empty_writes = { λ s. s.empty_writes };

    fn write(&mut self, piece: &[u8]) -> Result<usize, Failed>
        ensures bound { IfOk result (λ n. n ≤ length piece.now) }
        ensures appends { IfOk result (λ n.
            Appends (Some self.old.written) (Some self.new.written) (take n piece.now)) }
        ensures empty { IfOk result (λ n. n ≡ 0 → 0 < length piece.now
            → Rose self.old.empty_writes self.new.empty_writes) }
        ensures failed { OnErr result (Rose self.old.faults self.new.faults) }
        ensures appended_nothing { OnErr result (Some self.new.written ≡ Some self.old.written) }
        ensures faults_never_fall { self.old.faults ≤ self.new.faults }
        ensures empty_writes_never_fall { self.old.empty_writes ≤ self.new.empty_writes }

        ensures listed { IsErr result ↔ Contains self.old.fail self.old.writes }
        ensures count { IfOk result (λ n. n ≡ min self.old.piece
            (min (self.old.room - length self.old.written) (length piece.now))) }
        ensures next { MatchResult result
            (λ n. self.new ≡ after_write self.old piece.now n) (λ _. self.new ≡ after_failed_write self.old) }
    {
        let write = self.writes;
        self.writes = write.saturating_add(1);
        if is_listed(&self.fail, write) {
            self.faults = self.faults.saturating_add(1);
            return Err(Failed);
        }
        let count = self.piece.min(self.room.len() - self.len).min(piece.len());
        self.empty_writes = count_empty(self.empty_writes, piece, count);
        copy_at(&piece[..count], &mut self.room, self.len);
        self.len += count;
        Ok(count)
    }
}
