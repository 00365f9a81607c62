ghost use Rattle.std.specs.Prelude.{◌≡◌, ◌≤◌, ◌<◌, ◌↔◌, length, take, min, Some, IsErr, IfOk, OnErr, MatchResult, Contains};
ghost use Rattle.std.specs.Io.KnownBytes.{IsAtEnd};
ghost use Rattle.caja_io.specs.Count.{Rose};
ghost use Rattle.caja_io.specs.Source.{Takes};
ghost use Rattle.caja_io.specs.Memory.{after_read, after_failed_read};

use crate::memory::{copy_at, is_listed};
use crate::{Failed, Source};
use std::marker::Model;

/// A source over bytes in memory. A read fails exactly where `fail` lists it; the reads are counted from 0, in 64 bits,
/// and the count stays at its last value. Any other read gives as many bytes as `piece`, what is left and the slice allow.
#[derive(Debug, Drop)]
pub struct MemSource {
    bytes: Vec<u8>,
    at: usize,
    piece: usize,
    fail: Vec<u32>,
    reads: u64,
    faults: u64,
}

impl Model for MemSource {
    ghost use Rattle.std.specs.Prelude.{◌≤◌, drop, vec_len};
    ghost use Rattle.caja_io.specs.Memory.{Input};

    ghost Value = { Input };

    ghost view = { λ s. record {
      left = drop s.at s.bytes.items;
      piece = s.piece;
      fail = s.fail.items;
      reads = s.reads;
      faults = s.faults;
    } };

    ghost invariant = { λ s. (s.at ≤ vec_len s.bytes) × (1 ≤ s.piece) };
}

impl MemSource {
    /// A source that has these bytes left, gives at most `piece` of them at a read, and fails at the reads in `fail`.
    pub fn new(bytes: Vec<u8>, piece: usize, fail: Vec<u32>) -> MemSource
        requires { 1 ≤ piece }
        ensures { result ≡ record {
          left = bytes.items;
          piece = piece;
          fail = fail.items;
          reads = 0;
          faults = 0;
        } }
    {
        MemSource {
            bytes,
            at: 0,
            piece,
            fail,
            reads: 0,
            faults: 0,
        }
    }
}

impl Source for MemSource {
    ghost left = { λ s. Some s.left };

    ghost faults = { λ s. s.faults };

    fn read(&mut self, into: &mut [u8]) -> Result<usize, Failed>
        ensures bound { IfOk result (λ n. n ≤ length into.old) }
        ensures takes { IfOk result (λ n. Takes (Some self.old.left) (Some self.new.left) (take n into.new)) }
        ensures end { IfOk result (λ n. n ≡ 0 → 0 < length into.old → IsAtEnd (Some self.new.left)) }
        ensures failed { OnErr result (Rose self.old.faults self.new.faults) }
        ensures took_nothing { OnErr result (Some self.new.left ≡ Some self.old.left) }
        ensures never_falls { self.old.faults ≤ self.new.faults }

        ensures listed { IsErr result ↔ Contains self.old.fail self.old.reads }
        ensures count { IfOk result (λ n. n ≡ min self.old.piece (min (length self.old.left) (length into.old))) }
        ensures next { MatchResult result
            (λ n. self.new ≡ after_read self.old n) (λ _. self.new ≡ after_failed_read self.old) }
    {
        let read = self.reads;
        self.reads = read.saturating_add(1);
        if is_listed(&self.fail, read) {
            self.faults = self.faults.saturating_add(1);
            return Err(Failed);
        }
        let left = &self.bytes[self.at..];
        let count = self.piece.min(left.len()).min(into.len());
        copy_at(&left[..count], into, 0);
        self.at += count;
        Ok(count)
    }
}
