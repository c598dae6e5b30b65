ghost use Rattle.std.specs.Prelude.{◌≡◌, ℕ, ◌+◌, ◌-◌, ◌<◌, ◌≤◌, ◌↔◌, ◌⊎◌, List, [], ◌++◌, length, take, drop, min, Contains, Option, Some, IsErr, IsTrue, IsSomeAnd, IfOk, OnOk, OnErr};
ghost use Rattle.std.specs.Io.{ReadsAtMost};
ghost use Rattle.mm_io.specs.Cause.{HasCause};
ghost use Rattle.mm_io.specs.Memory.{Platter, IsFailing, called, failed, overwritten};

use crate::failed::Failed;
use crate::source::{copy_from, fails_at};
use std::alloc::Global;
use std::marker::Model;

/// Where bytes are kept.
pub trait Disk {
    /// How many faults it met.
    ghost faults: { Self → ℕ };

    /// How many bytes the disk has.
    fn len(&mut self) -> Result<u64, Failed>
        ensures cause { HasCause (faults self.old) (faults self.new) result };

    /// Fills as much of `buf` as the disk has from `at` on, and answers how much. 0 for a `buf` that isn't empty
    /// means that the disk ends there.
    fn read_at(&mut self, at: u64, buf: &mut [u8]) -> Result<usize, Failed>
        ensures count { ReadsAtMost result buf.new }
        ensures cause { HasCause (faults self.old) (faults self.new) result };

    /// Writes the bytes from `at` on, which is at most the disk's length.
    fn write_at(&mut self, at: u64, bytes: &[u8]) -> Result<(), Failed>
        ensures cause { HasCause (faults self.old) (faults self.new) result };

    /// Makes what was written last.
    fn sync(&mut self) -> Result<(), Failed>
        ensures cause { HasCause (faults self.old) (faults self.new) result };
}

/// A disk in memory, which fails the calls that it is told to fail, those for which memory runs out, and a write
/// that begins past its end.
#[derive(Debug, Drop)]
pub struct MemDisk {
    bytes: Vec<u8>,
    fails: Vec<u32>,
    stop: Option<u32>,
    calls: u64,
    faults: u64,
}

impl Model for MemDisk {
    ghost use Rattle.mm_io.specs.Memory.{Platter};

    ghost Value = { Platter };

    ghost view = { λ d. record { bytes = d.bytes.items; fails = d.fails.items; stop = d.stop; calls = d.calls; faults = d.faults } };
}

impl MemDisk {
    /// A disk of these bytes whose calls with the given numbers fail, and with a `stop` each call from that number
    /// on; the first call has number 0.
    pub fn make(_alloc: Global, bytes: Vec<u8>, fails: Vec<u32>, stop: Option<u32>) -> MemDisk
        ensures { result ≡ record { bytes = bytes.items; fails = fails.items; stop = stop; calls = 0; faults = 0 } }
    {
        MemDisk {
            bytes,
            fails,
            stop,
            calls: 0,
            faults: 0,
        }
    }

    /// What a read gives now.
    pub fn bytes(&self) -> &[u8]
        ensures { result.now ≡ self.now.bytes }
    {
        self.bytes.as_slice()
    }

    /// Whether the next call is one that fails.
    fn fails_next(&self) -> bool
        ensures { IsTrue result ↔ IsFailing self.now }
    {
        fails_at(&self.fails, self.calls) || stops_at(self.stop, self.calls)
    }

    /// Counts a call, and fails it where it is one that fails.
    fn begin(&mut self) -> Result<(), Failed>
        ensures cause { HasCause self.old.faults self.new.faults result }
        ensures fails { IsErr result ↔ IsFailing self.old }
        ensures ok { OnOk result (self.new ≡ called self.old) }
        ensures err { OnErr result (self.new ≡ failed self.old) }
    {
        let fails = self.fails_next();
        self.calls = self.calls.saturating_add(1);
        if fails {
            self.faults = self.faults.saturating_add(1);
            return Err(Failed);
        }
        Ok(())
    }
}

impl Disk for MemDisk {
    ghost faults = { λ d. d.faults };

    fn len(&mut self) -> Result<u64, Failed>
        ensures cause { HasCause self.old.faults self.new.faults result }

        // It fails exactly where it was told to.
        ensures fails { IsErr result ↔ IsFailing self.old }
        ensures value { IfOk result (λ n. n ≡ length self.old.bytes) }
        ensures ok { OnOk result (self.new ≡ called self.old) }
        ensures err { OnErr result (self.new ≡ failed self.old) }
    {
        self.begin()?;
        Ok(self.bytes.len() as u64)
    }

    fn read_at(&mut self, at: u64, buf: &mut [u8]) -> Result<usize, Failed>
        ensures count { ReadsAtMost result buf.new }
        ensures cause { HasCause self.old.faults self.new.faults result }

        // It fails exactly where it was told to, and else gives as much as is there and has room.
        ensures fails { IsErr result ↔ IsFailing self.old }
        ensures most { IfOk result (λ n. n ≡ min (length buf.new) (length self.old.bytes - at)) }
        ensures bytes { IfOk result (λ n. take n buf.new ≡ take n (drop at self.old.bytes)) }
        ensures ok { OnOk result (self.new ≡ called self.old) }
        ensures err { OnErr result (self.new ≡ failed self.old) }
    {
        self.begin()?;
        Ok(copy_from(&self.bytes, at as usize, buf))
    }

    fn write_at(&mut self, at: u64, bytes: &[u8]) -> Result<(), Failed>
        ensures cause { HasCause self.old.faults self.new.faults result }

        // It fails where it was told to, past the end, and where memory runs out for a piece that reaches past it.
        ensures fails { IsFailing self.old → IsErr result }
        ensures past { length self.old.bytes < at → IsErr result }
        ensures within { IsErr result → IsFailing self.old ⊎ (length self.old.bytes < at + length bytes.now) }
        ensures ok { OnOk result (self.new ≡ record (called self.old) { bytes = overwritten self.old.bytes at bytes.now }) }
        ensures err { OnErr result (self.new ≡ failed self.old) }
    {
        self.begin()?;
        if overwrite(&mut self.bytes, at, bytes).is_err() {
            self.faults = self.faults.saturating_add(1);
            return Err(Failed);
        }
        Ok(())
    }

    fn sync(&mut self) -> Result<(), Failed>
        ensures cause { HasCause self.old.faults self.new.faults result }

        // It fails exactly where it was told to.
        ensures fails { IsErr result ↔ IsFailing self.old }
        ensures ok { OnOk result (self.new ≡ called self.old) }
        ensures err { OnErr result (self.new ≡ failed self.old) }
    {
        self.begin()
    }
}

/// Whether the call of this number is at or past the one from which on all fail.
fn stops_at(stop: Option<u32>, call: u64) -> bool
    ensures { IsTrue result ↔ IsSomeAnd stop (λ first. first ≤ call) }
{
    match stop {
        Some(first) => u64::from(first) <= call,
        None => false,
    }
}

/// Writes a piece over the bytes from a place on, and appends what reaches past their end. It fails at a place past
/// the end, and where memory runs out for what it appends; the bytes are then as they were.
fn overwrite(bytes: &mut Vec<u8>, at: u64, piece: &[u8]) -> Result<(), Failed>
    ensures past { length bytes.old.items < at → IsErr result }
    ensures within { IsErr result → length bytes.old.items < at + length piece.now }
    ensures ok { OnOk result (bytes.new.items ≡ overwritten bytes.old.items at piece.now) }
    ensures err { OnErr result (bytes.new.items ≡ bytes.old.items) }
{
    let start = at as usize;
    if start > bytes.len() {
        return Err(Failed);
    }
    let within = piece.len().min(bytes.len() - start);
    if bytes.extend_from_slice(&piece[within..]).is_err() {
        return Err(Failed);
    }
    bytes[start..start + within].copy_from_slice(&piece[..within]);
    Ok(())
}
