//! A reader that gives one byte at a time.
use std::io;
use std::io::{Error, ErrorKind, Read};

/// How a reader behaves: each read is interrupted so often before it gives a byte, and the read with
/// the number, from 1, fails.
#[derive(Clone, Copy, Debug)]
pub(crate) struct Nature {
    pub(crate) pauses: u32,
    pub(crate) failing: u32,
}

pub(crate) const FINE: Nature = Nature {
    pauses: 0,
    failing: u32::MAX,
};

/// A reader of these bytes.
#[derive(Drop)]
pub(crate) struct Drip<'a> {
    left: &'a [u8],
    nature: Nature,
    interruptions: u32,
    reads: u32,
}

impl<'a> Drip<'a> {
    pub(crate) fn new(bytes: &'a [u8], nature: Nature) -> Drip<'a> {
        Drip {
            left: bytes,
            nature,
            interruptions: 0,
            reads: 0,
        }
    }
}

impl Read for Drip<'_> {
    fn read(&mut self, buf: &mut [u8]) -> io::Result<usize> {
        if self.interruptions < self.nature.pauses {
            self.interruptions += 1;
            return Err(Error::from(ErrorKind::Interrupted));
        }
        self.interruptions = 0;
        self.reads = self.reads.saturating_add(1);
        if self.reads == self.nature.failing {
            return Err(Error::from(ErrorKind::ConnectionReset));
        }
        match (self.left, buf) {
            ([first, rest @ ..], [place, ..]) => {
                *place = *first;
                self.left = rest;
                Ok(1)
            }
            _ => Ok(0),
        }
    }
}
