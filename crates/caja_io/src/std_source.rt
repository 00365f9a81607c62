ghost use Rattle.std.specs.Prelude.{◌≡◌, ℕ, ◌<◌, ◌≤◌, List, length, take, Option, None, IfOk, OnErr, MatchResult};
ghost use Rattle.std.specs.Io.KnownBytes.{IsAtEnd, ReadConsumes};
ghost use Rattle.caja_io.specs.Count.{Rose, next_count};
ghost use Rattle.caja_io.specs.Source.{Takes};

use crate::{Failed, Source};
use std::io::Read;
use std::marker::Model;

/// A source over a reader of std. It doesn't tell what is left. Each `Err` of the reader, `Interrupted` too, is a fault;
/// their count stays at its last value.
#[derive(Debug, Drop)]
pub struct StdSource<R> {
    reader: R,
    faults: u64,
}

impl<R> Model for StdSource<R> {
    ghost use Rattle.caja_io.specs.Standard.{Input};

    ghost Value = { Input R };

    ghost view = { λ s. record {
      reader = s.reader;
      faults = s.faults;
    } };
}

impl<R: Read> StdSource<R> {
    /// A source with no fault so far.
    pub fn new(reader: R) -> StdSource<R>
        ensures { result ≡ record {
          reader = reader;
          faults = 0;
        } }
    {
        StdSource { reader, faults: 0 }
    }
}

impl<R: Read> Source for StdSource<R> {
    ghost left = { λ _. None };

    ghost faults = { λ s. s.faults };

    fn read(&mut self, into: &mut [u8]) -> Result<usize, Failed>
        ensures bound { IfOk result (λ n. n ≤ length into.old) }
        ensures takes { IfOk result (λ n. Takes None None (take n into.new)) }
        ensures end { IfOk result (λ n. n ≡ 0 → 0 < length into.old → IsAtEnd None) }
        ensures failed { OnErr result (Rose self.old.faults self.new.faults) }
        ensures took_nothing { OnErr result (◌≡◌ {A = Option (List ℕ)} None None) }
        ensures never_falls { self.old.faults ≤ self.new.faults }

        // What it gives is what the reader gives.
        ensures passed_on { ReadConsumes (R.remaining self.old.reader) (R.remaining self.new.reader)
            result into.new }
        ensures counted { MatchResult result
            (λ _. self.new.faults ≡ self.old.faults) (λ _. self.new.faults ≡ next_count self.old.faults) }
    {
        match self.reader.read(into) {
            Ok(count) => Ok(count),
            Err(_) => {
                self.faults = self.faults.saturating_add(1);
                Err(Failed)
            }
        }
    }
}
