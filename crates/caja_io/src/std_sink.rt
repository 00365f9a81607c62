ghost use Rattle.std.specs.Prelude.{◌≡◌, ℕ, ◌<◌, ◌≤◌, List, length, take, Option, None, IfOk, OnErr, MatchResult};
ghost use Rattle.std.specs.Io.KnownBytes.{WriteAppends};
ghost use Rattle.caja_io.specs.Count.{Rose, next_count};
ghost use Rattle.caja_io.specs.Sink.{Appends, count_empty};

use crate::sink::count_empty;
use crate::{Failed, Sink};
use std::io::Write;
use std::marker::Model;

/// A sink over a writer of std. It doesn't tell what was written. Each `Err` of the writer, `Interrupted` too, is a fault;
/// the counts of faults and of empty writes stay at their last value.
#[derive(Debug, Drop)]
pub struct StdSink<W> {
    writer: W,
    faults: u64,
    empty_writes: u64,
}

impl<W> Model for StdSink<W> {
    ghost use Rattle.caja_io.specs.Standard.{Output};

    ghost Value = { Output W };

    ghost view = { λ s. record {
      writer = s.writer;
      faults = s.faults;
      empty_writes = s.empty_writes;
    } };
}

impl<W: Write> StdSink<W> {
    /// A sink with no fault and no empty write so far.
    pub fn new(writer: W) -> StdSink<W>
        ensures { result ≡ record {
          writer = writer;
          faults = 0;
          empty_writes = 0;
        } }
    {
        StdSink {
            writer,
            faults: 0,
            empty_writes: 0,
        }
    }
}

impl<W: Write> Sink for StdSink<W> {
    ghost written = { λ _. None };

    ghost faults = { λ s. s.faults };

    ghost empty_writes = { λ s. s.empty_writes };

    fn write(&mut self, piece: &[u8]) -> Result<usize, Failed>
        ensures bound { IfOk result (λ n. n ≤ length piece.now) }
        ensures appends { IfOk result (λ n. Appends None None (take n piece.now)) }
        ensures empty { IfOk result (λ n. n ≡ 0 → 0 < length piece.now
            → Rose self.old.empty_writes self.new.empty_writes) }
        ensures failed { OnErr result (Rose self.old.faults self.new.faults) }
        ensures appended_nothing { OnErr result (◌≡◌ {A = Option (List ℕ)} None None) }
        ensures faults_never_fall { self.old.faults ≤ self.new.faults }
        ensures empty_writes_never_fall { self.old.empty_writes ≤ self.new.empty_writes }

        // What it takes, the writer takes.
        ensures passed_on { WriteAppends (W.contents self.old.writer) (W.contents self.new.writer)
            result piece.now }
        ensures counted { MatchResult result
            (λ _. self.new.faults ≡ self.old.faults) (λ _. self.new.faults ≡ next_count self.old.faults) }
        ensures counted_empty { MatchResult result
            (λ n. self.new.empty_writes ≡ count_empty self.old.empty_writes piece.now n)
            (λ _. self.new.empty_writes ≡ self.old.empty_writes) }
    {
        match self.writer.write(piece) {
            Ok(count) => {
                self.empty_writes = count_empty(self.empty_writes, piece, count);
                Ok(count)
            }
            Err(_) => {
                self.faults = self.faults.saturating_add(1);
                Err(Failed)
            }
        }
    }
}
