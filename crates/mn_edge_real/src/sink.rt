//! A stream of bytes.
ghost use Rattle.std.specs.Prelude.{◌≡◌, ◌++◌, ℕ, [], None, Some, take, option_copied, IsSome, OnOk, OnErr};
ghost use Rattle.std.specs.Option.{ForSome};
ghost use Rattle.std.specs.Result.{result_err};
ghost use Rattle.std.specs.Io.KnownBytes.{Keeps};
ghost use Rattle.std.specs.Io.Buffered.{writer_buffer, writer_contents};
ghost use Rattle.mn_edge.specs.Faults.{Counted};

use crate::fault::counted;
use mn_edge::{DeviceBad, Sink};
use std::io;
use std::io::{BufWriter, Error, ErrorKind, Write};
use std::marker::Model;

/// A stream of bytes, as standard output, behind a buffer. It tells of the bytes what the stream tells: standard
/// output nothing.
#[derive(Drop)]
pub struct HostSink<W: Write + Drop> {
    inner: BufWriter<W>,
    faults: u64,
    refusal: Option<DeviceBad>,
    failure: Option<Error>,
}

impl<W: Write + Drop> Model for HostSink<W> {
    ghost use Rattle.std.specs.Io.Buffered.{writer_buffer, writer_contents};
    ghost use Rattle.mn_edge_real.specs.Sinks.{SinkView};

    ghost Value = { SinkView };

    ghost view = { λ s. record {
      written = writer_contents W.contents s.inner;
      waiting = writer_buffer s.inner;
      faults = s.faults;
      refusal = s.refusal;
      failure = s.failure;
    } };
}

impl<W: Write + Drop> HostSink<W> {
    pub fn new(inner: BufWriter<W>) -> HostSink<W>
        ensures { result ≡ record {
          written = writer_contents W.contents inner;
          waiting = writer_buffer inner;
          faults = 0;
          refusal = None;
          failure = None;
        } }
    {
        HostSink {
            inner,
            faults: 0,
            refusal: None,
            failure: None,
        }
    }

    /// Why a put or a flush failed last.
    pub fn failure(&self) -> Option<&Error>
        ensures { option_copied result ≡ self.now.failure }
    {
        self.failure.as_ref()
    }

    /// Hands on all that waits in the buffer, and what the stream itself holds back. A failure counts as one of a put.
    pub fn flush(&mut self) -> Result<(), DeviceBad>
        ensures flushed { OnOk result (self.new.waiting ≡ []) }
        ensures kept { Keeps self.old.written self.new.written }
        ensures cause { Counted (Some self.old.faults) (Some self.new.faults) result }
        ensures last { self.new.refusal ≡ result_err result }
        ensures why { OnErr result (IsSome self.new.failure) }
    {
        self.refusal = None;
        match self.inner.flush() {
            Ok(()) => Ok(()),
            Err(error) => {
                let bad = counted(&mut self.faults, &error);
                self.failure = Some(error);
                self.refusal = Some(bad);
                Err(bad)
            }
        }
    }
}

impl<W: Write + Drop> Sink for HostSink<W> {
    ghost written = { λ s. s.written };

    ghost faults = { λ s. Some s.faults };

    ghost refusal = { λ s. s.refusal };

    fn put(&mut self, piece: &[u8]) -> Result<(), DeviceBad>
        ensures put { OnOk result (
            ForSome self.old.written (λ t. self.new.written ≡ Some (t ++ piece.now))) }
        ensures refused { OnErr result (ForSome self.old.written (λ t.
            (n : ℕ) × (self.new.written ≡ Some (t ++ take n piece.now)))) }
        ensures cause { Counted (Some self.old.faults) (Some self.new.faults) result }
        ensures last { self.new.refusal ≡ result_err result }

        // What this sink says besides: the error is kept.
        ensures why { OnErr result (IsSome self.new.failure) }
    {
        self.refusal = None;
        match write_whole(&mut self.inner, piece) {
            Ok(()) => Ok(()),
            Err(error) => {
                let bad = counted(&mut self.faults, &error);
                self.failure = Some(error);
                self.refusal = Some(bad);
                Err(bad)
            }
        }
    }
}

/// Writes the piece, again where a signal came in between. After an error a first part of it is written.
fn write_whole<W: Write>(writer: &mut W, piece: &[u8]) -> io::Result<()>
    ensures whole { OnOk result (ForSome (W.contents writer.old) (λ before.
        W.contents writer.new ≡ Some (before ++ piece.now))) }
    ensures part { OnErr result (ForSome (W.contents writer.old) (λ before.
        (n : ℕ) × (W.contents writer.new ≡ Some (before ++ take n piece.now)))) }
{
    let mut done = 0;
    'tries: for _ in 0..u64::MAX {
        if done == piece.len() {
            return Ok(());
        }
        match writer.write(&piece[done..]) {
            Ok(0) => return Err(Error::from(ErrorKind::WriteZero)),
            Ok(count) => done += count,
            Err(error) if error.kind() == ErrorKind::Interrupted => {}
            Err(error) => return Err(error),
        }
    }
    Err(Error::from(ErrorKind::TimedOut))
}
