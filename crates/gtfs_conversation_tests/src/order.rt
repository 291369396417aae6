//! What had gone out when each byte was read.
use crate::assertions::assert_is;
use crate::echo::Echo;
use gtfs_conversation::{StreamInput, converse};
use gtfs_devices::WriteOut;
use std::cell::Cell;
use std::io;
use std::io::{BufWriter, Read, Write};
use std::test::Fail;

// A pipe in both directions. For each read it notes, as one more digit, how many bytes were flushed
// by then.
#[derive(Drop)]
struct Pipe {
    taken: Cell<u64>,
    flushed: Cell<u64>,
    digits: Cell<u64>,
}

#[derive(Drop)]
struct Asker<'a> {
    pipe: &'a Pipe,
    left: &'a [u8],
}

#[derive(Drop)]
struct Reader<'a> {
    pipe: &'a Pipe,
}

impl Read for Asker<'_> {
    fn read(&mut self, buf: &mut [u8]) -> io::Result<usize> {
        let digits = self.pipe.digits.get().saturating_mul(10);
        self.pipe
            .digits
            .set(digits.saturating_add(self.pipe.flushed.get()));
        match (self.left, buf) {
            ([first, rest @ ..], [place, ..]) => {
                *place = *first;
                self.left = rest;
                Ok(1)
            }
            _ => Ok(0),
        }
    }
}

impl Write for Reader<'_> {
    fn write(&mut self, buf: &[u8]) -> io::Result<usize> {
        let count = u64::try_from(buf.len()).unwrap_or(0);
        self.pipe
            .taken
            .set(self.pipe.taken.get().saturating_add(count));
        Ok(buf.len())
    }

    fn flush(&mut self) -> io::Result<()> {
        self.pipe.flushed.set(self.pipe.taken.get());
        Ok(())
    }
}

// The lines are of one, two and three bytes, so that 2, 5 and 9 bytes answer them.
#[test]
fn nothing_is_read_before_the_answer_was_flushed(rt: HostRuntime) -> Result<(), Fail> {
    let alloc = rt.alloc();
    let pipe = Pipe {
        taken: Cell::new(0),
        flushed: Cell::new(0),
        digits: Cell::new(1),
    };
    let asker = Asker {
        pipe: &pipe,
        left: b"a\nbb\nccc\n",
    };
    let mut input = StreamInput::new(alloc, asker)?;
    let mut out = WriteOut::new(BufWriter::new(alloc, Reader { pipe: &pipe })?);
    let found = converse(&mut input, &mut out, &Echo);
    let read = (pipe.digits.get(), pipe.flushed.get());
    assert_is(
        &rt,
        (found, read),
        (Ok(()), (10_022_255_559, 9)),
        "read",
        (),
    );
    Ok(())
}
