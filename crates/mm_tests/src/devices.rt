ghost use Rattle.std.specs.Prelude.{None};

use mm_io::{
    Disk, Failed, MemDisk, MemSink, MemSource, ReadFail, Sink, Source, read_all, write_all,
};
use std::alloc::{AllocError, Global};
use std::test::Fail;

// A source that gives one byte a call, and doesn't tell what it has left.
#[derive(Drop)]
struct Drip {
    bytes: MemSource,
}

impl Source for Drip {
    ghost left = { λ _. None };

    ghost faults = { λ s. s.bytes.faults };

    fn read(&mut self, buf: &mut [u8]) -> Result<usize, Failed> {
        let room = buf.len().min(1);
        self.bytes.read(&mut buf[..room])
    }
}

// A sink that takes one byte a call, and doesn't tell what was written.
#[derive(Drop)]
struct Dribble {
    bytes: MemSink,
}

impl Sink for Dribble {
    ghost written = { λ _. None };

    ghost faults = { λ s. s.bytes.faults };

    fn write(&mut self, bytes: &[u8]) -> Result<usize, Failed> {
        let room = bytes.len().min(1);
        self.bytes.write(&bytes[..room])
    }
}

// The numbers of the calls that fail: one or none.
fn failing(alloc: Global, call: Option<u32>) -> Result<Vec<u32>, AllocError> {
    let mut fails = Vec::new(alloc);
    if let Some(number) = call {
        fails.push(number)?;
    }
    Ok(fails)
}

#[test]
fn reads_all(rt: HostRuntime) -> Result<(), Fail> {
    let alloc = rt.alloc();
    for (bytes, fail, limit, want) in [
        ("abc", None, 3, None),
        ("abc", None, u64::MAX, None),
        ("abc", None, 2, Some(ReadFail::TooLong)),
        ("abc", None, 0, Some(ReadFail::TooLong)),
        ("abc", Some(0), 3, Some(ReadFail::Fault)),
        ("abc", Some(1), 3, Some(ReadFail::Fault)),
        ("abc", Some(2), 3, None),
        ("", None, 0, None),
        ("", Some(0), 0, Some(ReadFail::Fault)),
    ] {
        let fails = failing(alloc, fail)?;
        let mut src = MemSource::make(bytes.as_bytes().to_vec(alloc)?, fails);
        match read_all(alloc, &mut src, limit) {
            Ok(read) => {
                assert_eq!(rt; want, None, "{bytes:?} up to {limit}");
                assert_eq!(rt; read.as_slice(), bytes.as_bytes());
            }
            Err(fail) => assert_eq!(rt; Some(fail), want, "{bytes:?} up to {limit}"),
        }
    }
    Ok(())
}

// 10,000 bytes are read in three calls by one source, and byte by byte by the other.
#[test]
fn reads_many_bytes(rt: HostRuntime) -> Result<(), Fail> {
    let alloc = rt.alloc();
    let mut bytes = Vec::new(alloc);
    for at in 0..10_000u32 {
        bytes.push((at % 251) as u8)?;
    }

    let mut src = MemSource::make(bytes.clone()?, failing(alloc, None)?);
    assert!(rt; read_all(alloc, &mut src, 10_000)? == bytes);
    let mut src = MemSource::make(bytes.clone()?, failing(alloc, None)?);
    assert_eq!(rt;
        read_all(alloc, &mut src, 9_999).err(),
        Some(ReadFail::TooLong)
    );
    let mut src = MemSource::make(bytes.clone()?, failing(alloc, Some(2))?);
    assert_eq!(rt;
        read_all(alloc, &mut src, 10_000).err(),
        Some(ReadFail::Fault)
    );

    let mut src = Drip {
        bytes: MemSource::make(bytes.clone()?, failing(alloc, None)?),
    };
    assert!(rt; read_all(alloc, &mut src, 10_000)? == bytes);
    let mut src = Drip {
        bytes: MemSource::make(bytes, failing(alloc, Some(9_999))?),
    };
    assert_eq!(rt;
        read_all(alloc, &mut src, 10_000).err(),
        Some(ReadFail::Fault)
    );
    Ok(())
}

#[test]
fn writes_all(rt: HostRuntime) -> Result<(), Fail> {
    let alloc = rt.alloc();
    for (fail, whole, single) in [
        (None, "abc", "abc"),
        (Some(0), "", ""),
        (Some(2), "abc", "ab"),
        (Some(3), "abc", "abc"),
    ] {
        let mut sink = MemSink::make(alloc, failing(alloc, fail)?);
        let outcome = write_all(&mut sink, b"abc");
        assert_eq!(rt; outcome.is_ok(), whole == "abc", "failing {fail:?}");
        assert_eq!(rt; sink.bytes(), whole.as_bytes(), "failing {fail:?}");

        let mut sink = Dribble {
            bytes: MemSink::make(alloc, failing(alloc, fail)?),
        };
        let outcome = write_all(&mut sink, b"abc");
        assert_eq!(rt; outcome.is_ok(), single == "abc", "failing {fail:?}");
        assert_eq!(rt; sink.bytes.bytes(), single.as_bytes(), "failing {fail:?}");
    }
    Ok(())
}

#[test]
fn disk_keeps_bytes(rt: HostRuntime) -> Result<(), Fail> {
    let alloc = rt.alloc();
    let mut disk = MemDisk::make(alloc, b"abcd".to_vec(alloc)?, failing(alloc, None)?, None);
    for (at, piece, after) in [
        (0, "", "abcd"),
        (0, "A", "Abcd"),
        (1, "BC", "ABCd"),
        (2, "xyz", "ABxyz"),
        (5, "!", "ABxyz!"),
        (6, "", "ABxyz!"),
    ] {
        assert_eq!(rt;
            disk.write_at(at, piece.as_bytes()),
            Ok(()),
            "{piece:?} at {at}"
        );
        assert_eq!(rt; disk.bytes(), after.as_bytes(), "{piece:?} at {at}");
    }
    assert_eq!(rt; disk.write_at(7, b""), Err(Failed));
    assert_eq!(rt; disk.write_at(u64::MAX, b"?"), Err(Failed));
    assert_eq!(rt; disk.len(), Ok(6));
    assert_eq!(rt; disk.sync(), Ok(()));

    for (at, count, after) in [
        (0, 4, "ABxy"),
        (2, 4, "xyz!"),
        (3, 3, "yz!-"),
        (5, 1, "!---"),
        (6, 0, "----"),
        (u64::MAX, 0, "----"),
    ] {
        let mut buf = *b"----";
        assert_eq!(rt; disk.read_at(at, &mut buf), Ok(count), "at {at}");
        assert_eq!(rt; buf.as_slice(), after.as_bytes(), "at {at}");
    }
    assert_eq!(rt; disk.read_at(0, &mut []), Ok(0));
    Ok(())
}

// Five calls: a length, a write over the bytes, a read, a sync, and a length again.
#[test]
fn disk_fails_where_told(rt: HostRuntime) -> Result<(), Fail> {
    let alloc = rt.alloc();
    for (fail, stop, failed) in [
        (None, None, [false, false, false, false, false]),
        (Some(0), None, [true, false, false, false, false]),
        (Some(1), None, [false, true, false, false, false]),
        (Some(2), None, [false, false, true, false, false]),
        (Some(3), None, [false, false, false, true, false]),
        (None, Some(1), [false, true, true, true, true]),
        (Some(0), Some(3), [true, false, false, true, true]),
        (None, Some(5), [false, false, false, false, false]),
    ] {
        let mut disk = MemDisk::make(alloc, b"ab".to_vec(alloc)?, failing(alloc, fail)?, stop);
        let mut buf = [0u8; 2];
        let outcome = [
            disk.len().is_err(),
            disk.write_at(0, b"x").is_err(),
            disk.read_at(0, &mut buf).is_err(),
            disk.sync().is_err(),
            disk.len().is_err(),
        ];
        assert_eq!(rt; outcome, failed, "failing {fail:?}, stopped {stop:?}");
        let after = if failed[1] { "ab" } else { "xb" };
        assert_eq!(rt;
            disk.bytes(),
            after.as_bytes(),
            "failing {fail:?}, stopped {stop:?}"
        );
    }
    Ok(())
}
