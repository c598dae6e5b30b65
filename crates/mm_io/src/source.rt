ghost use Rattle.std.specs.Prelude.{◌≡◌, ℕ, ◌+◌, ◌-◌, ◌<◌, ◌≤◌, ◌↔◌, List, [], ◌++◌, length, take, drop, min, Contains, Option, Some, IsErr, IfOk, IfSome, OnOk, OnErr, IsErrOf, IsTrue, MatchResult, vec_len};
ghost use Rattle.std.specs.Io.{ReadsAtMost};
ghost use Rattle.std.specs.Io.KnownBytes.{ReadConsumes, Consumes, IsAtEnd};
ghost use Rattle.mm_io.specs.Cause.{HasCause, HasRisen};
ghost use Rattle.mm_io.specs.Memory.{Feed, next_count};
ghost use Rattle.mm_io.specs.Reading.{HasMoreThan, TakesAtMost};

use crate::failed::Failed;
use std::alloc::{AllocError, Global};
use std::marker::Model;

/// Where bytes come from.
pub trait Source {
    /// The bytes that are left, where the source tells them.
    ghost left: { Self → Option (List ℕ) };

    /// How many faults it met.
    ghost faults: { Self → ℕ };

    /// Takes the next bytes into the front of `buf`, and answers how many. 0 for a `buf` that isn't empty means
    /// that nothing is left. A call that failed took nothing.
    fn read(&mut self, buf: &mut [u8]) -> Result<usize, Failed>
        ensures count { ReadsAtMost result buf.new }
        ensures bytes { ReadConsumes (left self.old) (left self.new) result buf.new }
        ensures cause { HasCause (faults self.old) (faults self.new) result };
}

/// Why not all bytes of a source were read.
#[derive(Clone, Copy, Debug, PartialEq, Eq)]
pub enum ReadFail {
    /// The source failed.
    Fault,
    /// It had more bytes left than the limit.
    TooLong,
    /// Memory ran out.
    NoMemory,
}

/// How many bytes are asked for at once.
const CHUNK: usize = 4096;

/// All bytes that a source has left, read to its end; at most `limit` of them.
pub fn read_all<S: Source>(alloc: Global, src: &mut S, limit: u64) -> Result<Vec<u8>, ReadFail>
    // All that was left was read, nothing is left now, and it is within the limit.
    ensures all { IfOk result (λ v. Consumes (S.left src.old) (S.left src.new) v.items × IsAtEnd (S.left src.new)) }
    ensures limit { IfOk result (λ v. vec_len v ≤ limit) }
    ensures too_long { IsErrOf result ReadFail.TooLong → HasMoreThan limit (S.left src.old) }

    // At most one byte more than the limit is taken, whatever is answered.
    ensures taken { TakesAtMost (limit + 1) (S.left src.old) (S.left src.new) }

    // A fault is answered only where the source counted one.
    ensures fault { IsErrOf result ReadFail.Fault → HasRisen (S.faults src.old) (S.faults src.new) }
    ensures kept { S.faults src.old ≤ S.faults src.new }
{
    let mut bytes = Vec::new(alloc);
    let mut chunk = [0u8; CHUNK];
    while bytes.len() as u64 <= limit {
        let room = (limit - bytes.len() as u64).min(CHUNK as u64 - 1) as usize + 1;
        let Ok(count) = src.read(&mut chunk[..room]) else {
            return Err(ReadFail::Fault);
        };
        if count == 0 {
            return Ok(bytes);
        }
        bytes
            .extend_from_slice(&chunk[..count])
            .map_err(|_| ReadFail::NoMemory)?;
    }
    Err(ReadFail::TooLong)
}

/// A source in memory, which fails the calls that it is told to fail.
#[derive(Debug, Drop)]
pub struct MemSource {
    bytes: Vec<u8>,
    place: usize,
    fails: Vec<u32>,
    calls: u64,
    faults: u64,
}

impl Model for MemSource {
    ghost use Rattle.std.specs.Prelude.{◌≤◌, length, drop};
    ghost use Rattle.mm_io.specs.Memory.{Feed};

    ghost Value = { Feed };

    ghost view = { λ s. record { left = drop s.place s.bytes.items; fails = s.fails.items; calls = s.calls; faults = s.faults } };

    ghost invariant = { λ s. s.place ≤ length s.bytes.items };
}

impl MemSource {
    /// A source of these bytes whose calls with the given numbers fail; the first call has number 0.
    pub fn make(bytes: Vec<u8>, fails: Vec<u32>) -> MemSource
        ensures { result ≡ record { left = bytes.items; fails = fails.items; calls = 0; faults = 0 } }
    {
        MemSource {
            bytes,
            place: 0,
            fails,
            calls: 0,
            faults: 0,
        }
    }
}

impl Source for MemSource {
    ghost left = { λ s. Some s.left };

    ghost faults = { λ s. s.faults };

    fn read(&mut self, buf: &mut [u8]) -> Result<usize, Failed>
        ensures count { ReadsAtMost result buf.new }
        ensures bytes { ReadConsumes (Some self.old.left) (Some self.new.left) result buf.new }
        ensures cause { HasCause self.old.faults self.new.faults result }

        // It fails exactly the calls that it was told to, and else gives as much as is left and has room.
        ensures fails { IsErr result ↔ Contains self.old.fails self.old.calls }
        ensures most { IfOk result (λ n. n ≡ min (length buf.new) (length self.old.left)) }
        ensures counters { (self.new.fails ≡ self.old.fails) × (self.new.calls ≡ next_count self.old.calls) }
        ensures faults { MatchResult result (λ _. self.new.faults ≡ self.old.faults) (λ _. self.new.faults ≡ next_count self.old.faults) }
    {
        let fails = fails_at(&self.fails, self.calls);
        self.calls = self.calls.saturating_add(1);
        if fails {
            self.faults = self.faults.saturating_add(1);
            return Err(Failed);
        }
        let count = copy_from(&self.bytes, self.place, buf);
        self.place += count;
        Ok(count)
    }
}

/// Whether the call of this number is one that fails.
pub(crate) fn fails_at(fails: &[u32], call: u64) -> bool
    ensures { IsTrue result ↔ Contains fails.now call }
{
    fails.iter().any(|number| u64::from(*number) == call)
}

/// Copies the bytes from a place on into the front of `buf`, as many as there are and have room.
pub(crate) fn copy_from(bytes: &[u8], at: usize, buf: &mut [u8]) -> usize
    ensures most { result ≡ min (length buf.new) (length bytes.now - at) }
    ensures bytes { take result buf.new ≡ take result (drop at bytes.now) }
{
    let start = bytes.len().min(at);
    let count = buf.len().min(bytes.len() - start);
    buf[..count].copy_from_slice(&bytes[start..start + count]);
    count
}
