ghost use Rattle.std.specs.Prelude.{◌≡◌, ℕ, List, Option, None};

use mm_io::{Failed, Sink, Source};
use std::io::{Read, Write};
use std::marker::Model;

/// A source over a stream, as the program's standard input. It tells what its stream tells; contracts see the stream
/// and the count of faults.
#[derive(Drop)]
pub struct StdinSource<R: Read> {
    stream: R,
    faults: u64,
}

impl<R: Read> Model for StdinSource<R> {
    ghost use Rattle.std.specs.Prelude.{ℕ};

    ghost Value = { R × ℕ };

    ghost view = { λ s. (s.stream, s.faults) };
}

impl<R: Read> StdinSource<R> {
    /// A source that met no fault yet.
    pub fn new(stream: R) -> StdinSource<R>
        ensures { result ≡ (stream, 0) }
    {
        StdinSource { stream, faults: 0 }
    }
}

impl<R: Read> Source for StdinSource<R> {
    ghost left = { λ s. R.remaining s.0 };

    ghost faults = { λ s. s.1 };

    fn read(&mut self, buf: &mut [u8]) -> Result<usize, Failed> {
        match self.stream.read(buf) {
            Ok(count) => Ok(count),
            Err(_) => {
                self.faults = self.faults.saturating_add(1);
                Err(Failed)
            }
        }
    }
}

/// A sink over a stream, as the program's standard output. It tells what its stream tells. A stream that takes nothing
/// of a piece that isn't empty counts as a fault; contracts see the stream and the count.
#[derive(Drop)]
pub struct StdoutSink<W: Write> {
    stream: W,
    faults: u64,
}

impl<W: Write> Model for StdoutSink<W> {
    ghost use Rattle.std.specs.Prelude.{ℕ};

    ghost Value = { W × ℕ };

    ghost view = { λ s. (s.stream, s.faults) };
}

impl<W: Write> StdoutSink<W> {
    /// A sink that met no fault yet.
    pub fn new(stream: W) -> StdoutSink<W>
        ensures { result ≡ (stream, 0) }
    {
        StdoutSink { stream, faults: 0 }
    }
}

impl<W: Write> Sink for StdoutSink<W> {
    ghost written = { λ s. W.contents s.0 };

    ghost faults = { λ s. s.1 };

    fn write(&mut self, bytes: &[u8]) -> Result<usize, Failed> {
        if bytes.is_empty() {
            return Ok(0);
        }
        match self.stream.write(bytes) {
            Ok(0) | Err(_) => {
                self.faults = self.faults.saturating_add(1);
                Err(Failed)
            }
            Ok(taken) => Ok(taken),
        }
    }
}
