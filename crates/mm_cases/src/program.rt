use mm_io::{MemDisk, MemSink, MemSource};
use mm_run::{Caches, OpenGate, run};
use std::alloc::{AllocError, Global};
use std::thread::Threads;

/// What a run of the program wrote, and its status.
#[derive(Debug, Drop)]
pub struct Written {
    pub text: Vec<u8>,
    pub status: u8,
}

impl Written {
    /// The text without the line feed at its end, and the status after ` / `.
    pub fn line(&self, alloc: Global) -> Result<Vec<u8>, AllocError> {
        let mut line = Vec::new(alloc);
        line.extend_from_slice(self.text.strip_suffix(b"\n").unwrap_or(b"no line"))?;
        self.push_status(alloc, &mut line)?;
        Ok(line)
    }

    /// Appends the status, after ` / `.
    pub fn push_status(&self, alloc: Global, line: &mut Vec<u8>) -> Result<(), AllocError> {
        let status = self.status;
        line.extend_from_slice(format!(in alloc; " / {status}")?.as_bytes())
    }
}

fn disk(alloc: Global) -> MemDisk {
    MemDisk::make(alloc, Vec::new(alloc), Vec::new(alloc), None)
}

/// What the program writes for these words, parted by blanks, and this input.
pub fn run_with<R: Threads + Sync>(
    rt: &R,
    alloc: Global,
    words: &str,
    input: &[u8],
) -> Result<Written, AllocError> {
    let mut list = Vec::new(alloc);
    for word in words.split(' ') {
        list.push(String::from_str(alloc, word)?)?;
    }
    let mut source = MemSource::make(Vec::from_slice(alloc, input)?, Vec::new(alloc));
    let mut sink = MemSink::make(alloc, Vec::new(alloc));
    let caches = Caches {
        lia: disk(alloc),
        nia: disk(alloc),
    };
    let ended = run(rt, alloc, &list, &mut source, &mut sink, caches, &OpenGate);
    Ok(Written {
        text: Vec::from_slice(alloc, sink.bytes())?,
        status: ended.status,
    })
}
