ghost use Rattle.std.specs.Prelude.{None};

use mm_io::{Failed, MemDisk, MemSink, MemSource, Sink};
use mm_run::{Caches, OpenGate, run};
use std::alloc::{AllocError, Global};
use std::process::Abort;
use std::test::Fail;
use std::thread::Threads;

/// What a run left: its status, and what was written.
#[derive(Drop)]
struct Left {
    status: u8,
    written: Vec<u8>,
}

fn disk(alloc: Global) -> Result<MemDisk, AllocError> {
    let bytes = Vec::from_slice(alloc, b"kept")?;
    Ok(MemDisk::make(alloc, bytes, Vec::new(alloc), None))
}

// Runs over devices in memory, of which these calls fail, and shows that the disks stay as they were.
fn outcome(
    rt: &(impl Abort + Threads + Sync),
    alloc: Global,
    words: &str,
    input: &[u8],
    source_fails: &[u32],
    sink_fails: &[u32],
) -> Result<Left, AllocError> {
    let mut owned = Vec::new(alloc);
    for word in words.split_whitespace() {
        owned.push(String::from_str(alloc, word)?)?;
    }
    let bytes = Vec::from_slice(alloc, input)?;
    let mut goals = MemSource::make(bytes, Vec::from_slice(alloc, source_fails)?);
    let mut out = MemSink::make(alloc, Vec::from_slice(alloc, sink_fails)?);
    let caches = Caches {
        lia: disk(alloc)?,
        nia: disk(alloc)?,
    };
    let ended = run(rt, alloc, &owned, &mut goals, &mut out, caches, &OpenGate);
    assert_eq!(rt; ended.caches.lia.bytes(), b"kept".as_slice());
    assert_eq!(rt; ended.caches.nia.bytes(), b"kept".as_slice());
    Ok(Left {
        status: ended.status,
        written: Vec::from_slice(alloc, out.bytes())?,
    })
}

#[test]
fn other_words_get_the_usage_line(rt: HostRuntime) -> Result<(), Fail> {
    let alloc = rt.alloc();
    let good = b"row -1 >= 0\ncert done\n".as_slice();
    for words in ["check check", "", "--help", "Check", "prove --turns"] {
        let left = outcome(&rt, alloc, words, good, &[], &[])?;
        assert_eq!(rt;
            left.written.as_slice(),
            b"usage: mm check | prove [--turns N] | recheck\n".as_slice()
        );
        assert_eq!(rt; left.status, 2);
    }
    Ok(())
}

#[test]
fn a_device_that_fails_gives_status_5(rt: HostRuntime) -> Result<(), Fail> {
    let alloc = rt.alloc();
    let good = b"row -1 >= 0\ncert done\n".as_slice();
    // The source's first read fails, and then its second, which would have met the end.
    for words in ["check", "prove", "prove --turns 5"] {
        for fails in [[0], [1]] {
            let left = outcome(&rt, alloc, words, good, &fails, &[])?;
            assert_eq!(rt; (left.status, left.written.len()), (5, 0));
        }
    }
    let left = outcome(&rt, alloc, "check", good, &[], &[0])?;
    assert_eq!(rt; (left.status, left.written.len()), (5, 0));
    // A sink that isn't asked again doesn't fail.
    let left = outcome(&rt, alloc, "check", good, &[2], &[1])?;
    assert_eq!(rt;
        (left.status, left.written.as_slice()),
        (0, b"accepted\n".as_slice())
    );
    Ok(())
}

// A sink that takes two bytes a call, until its call of this number fails.
#[derive(Drop)]
struct Narrow {
    taken: Vec<u8>,
    calls: u64,
    fails: u64,
    faults: u64,
}

impl Sink for Narrow {
    ghost written = { λ _. None };

    ghost faults = { λ s. s.faults };

    fn write(&mut self, bytes: &[u8]) -> Result<usize, Failed> {
        let count = bytes.len().min(2);
        let fails = self.calls == self.fails;
        self.calls = self.calls.saturating_add(1);
        if fails || self.taken.extend_from_slice(&bytes[..count]).is_err() {
            self.faults = self.faults.saturating_add(1);
            return Err(Failed);
        }
        Ok(count)
    }
}

#[test]
fn a_sink_that_fails_keeps_a_prefix_of_the_line(rt: HostRuntime) -> Result<(), Fail> {
    let alloc = rt.alloc();
    for (fails, kept) in [(0, ""), (1, "ac"), (2, "acce"), (3, "accept")] {
        let mut words = Vec::new(alloc);
        words.push(String::from_str(alloc, "check")?)?;
        let bytes = Vec::from_slice(alloc, b"row -1 >= 0\ncert done\n")?;
        let mut goals = MemSource::make(bytes, Vec::new(alloc));
        let mut out = Narrow {
            taken: Vec::new(alloc),
            calls: 0,
            fails,
            faults: 0,
        };
        let caches = Caches {
            lia: disk(alloc)?,
            nia: disk(alloc)?,
        };
        let ended = run(&rt, alloc, &words, &mut goals, &mut out, caches, &OpenGate);
        assert_eq!(rt; ended.status, 5);
        assert_eq!(rt; out.taken.as_slice(), kept.as_bytes());
    }
    Ok(())
}
