//! A writer that fails from a call on.
use std::alloc::Global;
use std::io;
use std::io::{Error, ErrorKind, Write};

/// A writer that fails at the call with the number, from 1, and ever after, as a broken pipe: a
/// buffer before it tries once more where it is dropped. Writes and flushes are counted.
#[derive(Drop)]
pub(crate) struct Taker {
    pub(crate) text: Vec<u8>,
    failing: u32,
    calls: u32,
}

impl Taker {
    pub(crate) fn new(alloc: Global, failing: u32) -> Taker {
        Taker {
            text: Vec::new(alloc),
            failing,
            calls: 0,
        }
    }

    fn count(&mut self) -> io::Result<()> {
        self.calls = self.calls.saturating_add(1);
        if self.calls >= self.failing {
            return Err(Error::from(ErrorKind::BrokenPipe));
        }
        Ok(())
    }
}

impl Write for Taker {
    fn write(&mut self, buf: &[u8]) -> io::Result<usize> {
        self.count()?;
        self.text.extend_from_slice(buf)?;
        Ok(buf.len())
    }

    fn flush(&mut self) -> io::Result<()> {
        self.count()
    }
}
