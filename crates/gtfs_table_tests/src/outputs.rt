//! Outputs: a text goes out whole, or up to where its output fails.
use crate::assertions::{assert_is, assert_is_at};
use gtfs_table::{Failed, MemoryOut, Out, OutFault, WriteOut, write_text};
use std::alloc::Global;
use std::io;
use std::io::{BufWriter, Error, ErrorKind, Write};
use std::process::Abort;
use std::test::Fail;

// How a writer takes bytes: so many a call at most, after so many interruptions, until its room
// ends. At the call with the number it takes nothing, for this fault or for none, and after it all
// that it is handed.
#[derive(Clone, Copy, Debug)]
struct Nature {
    most: usize,
    pauses: u32,
    room: usize,
    failing: u32,
    fault: Option<ErrorKind>,
    is_flushed: bool,
}

const FINE: Nature = Nature {
    most: usize::MAX,
    pauses: 0,
    room: usize::MAX,
    failing: u32::MAX,
    fault: None,
    is_flushed: true,
};

#[derive(Drop)]
struct Writer {
    nature: Nature,
    text: Vec<u8>,
    interruptions: u32,
    calls: u32,
}

impl Writer {
    fn new(alloc: Global, nature: Nature) -> Writer {
        Writer {
            nature,
            text: Vec::new(alloc),
            interruptions: 0,
            calls: 0,
        }
    }
}

impl Write for Writer {
    fn write(&mut self, buf: &[u8]) -> io::Result<usize> {
        if self.interruptions < self.nature.pauses {
            self.interruptions += 1;
            return Err(Error::from(ErrorKind::Interrupted));
        }
        self.interruptions = 0;
        self.calls = self.calls.saturating_add(1);
        if self.calls == self.nature.failing {
            self.nature.most = usize::MAX;
            return match self.nature.fault {
                Some(kind) => Err(Error::from(kind)),
                None => Ok(0),
            };
        }
        let left = self.nature.room.saturating_sub(self.text.len());
        let count = buf.len().min(self.nature.most).min(left);
        self.text.extend_from_slice(&buf[..count])?;
        Ok(count)
    }

    fn flush(&mut self) -> io::Result<()> {
        if self.nature.is_flushed {
            Ok(())
        } else {
            Err(Error::from(ErrorKind::BrokenPipe))
        }
    }
}

// Texts that are sent one after the other, how much of each went out where it did not go out
// whole, and how many calls had failed by then.
type Sent = (&'static [u8], Option<OutFault>, u64);

fn assert_sent(rt: &impl Abort, out: &mut impl Out, sent: &[Sent], nature: Nature) {
    for &(text, fault, failures) in sent {
        let found = write_text(out, text).err();
        let found = (found, out.failures());
        assert_is_at(rt, found, (fault, failures), "sent to", nature);
    }
}

// Holds what a writer of this nature takes, and after how many calls.
fn assert_taken(
    rt: &impl Abort,
    alloc: Global,
    nature: Nature,
    sent: &[Sent],
    taken: (&[u8], u32),
) {
    let mut writer = Writer::new(alloc, nature);
    let mut out = WriteOut::new(&mut writer);
    assert_sent(rt, &mut out, sent, nature);
    let failures = out.failures().saturating_add(u64::from(!nature.is_flushed));
    let flushed = (out.flush().is_ok(), out.failures());
    assert_is_at(
        rt,
        flushed,
        (nature.is_flushed, failures),
        "flushed",
        nature,
    );
    let found = (writer.text.as_slice(), writer.calls);
    assert_is_at(rt, found, taken, "taken by", nature);
}

const TRICKLE: Nature = Nature {
    most: 1,
    pauses: 2,
    room: 9,
    is_flushed: false,
    ..FINE
};

// Natures of writers with what is sent to them, what they take of it, and after how many calls.
// A writer that takes no more fails.
const WRITERS: &[(Nature, &[Sent], (&[u8], u32))] = &[
    (
        FINE,
        &[(b"departure", None, 0), (b"", None, 0), (b"s", None, 0)],
        (b"departures", 2),
    ),
    (
        TRICKLE,
        &[
            (b"departure", None, 0),
            (b"s", Some(OutFault { written: 0 }), 1),
        ],
        (b"departure", 10),
    ),
    (
        Nature { room: 4, ..TRICKLE },
        &[(b"departure", Some(OutFault { written: 4 }), 1)],
        (b"depa", 5),
    ),
    (
        Nature {
            pauses: 1_000,
            ..TRICKLE
        },
        &[(b"departure", None, 0)],
        (b"departure", 9),
    ),
];

#[test]
fn writers_take_texts_whole_or_up_to_their_room(rt: HostRuntime) {
    for &(nature, sent, taken) in WRITERS {
        assert_taken(&rt, rt.alloc(), nature, sent, taken);
    }
}

const FAULTS: &[Option<ErrorKind>] = &[
    Some(ErrorKind::TimedOut),
    Some(ErrorKind::WouldBlock),
    Some(ErrorKind::BrokenPipe),
    Some(ErrorKind::StorageFull),
    None,
];

// Of a writer that takes four bytes a call, the call that fails, where the text ends, and what the
// writer has taken after one more text.
const FAILING: &[(u32, usize, &[u8])] = &[
    (1, 0, b"departure"),
    (2, 4, b"depadeparture"),
    (3, 8, b"departurdeparture"),
];

// A text ends at the write that failed, which is not tried again, though the writer would take
// more: what the next text hands over is all that it takes.
fn assert_ends(rt: &impl Abort, alloc: Global, fault: Option<ErrorKind>) {
    for &(failing, written, taken) in FAILING {
        let nature = Nature {
            most: 4,
            failing,
            fault,
            ..FINE
        };
        let fault = Some(OutFault { written });
        let sent: [Sent; 2] = [(b"departure", fault, 1), (b"departure", None, 1)];
        let calls = failing.saturating_add(1);
        assert_taken(rt, alloc, nature, &sent, (taken, calls));
    }
}

#[test]
fn a_text_ends_at_the_write_that_failed(rt: HostRuntime) {
    for &fault in FAULTS {
        assert_ends(&rt, rt.alloc(), fault);
    }
}

// Natures of writers behind a buffer, whether it is flushed before it has text and after, and what
// the writer then has taken. The buffer takes all of the text.
const BUFFERED: &[(Nature, [(bool, u64); 2], &[u8])] = &[
    (FINE, [(true, 0), (true, 0)], b"departure"),
    (Nature { room: 4, ..FINE }, [(true, 0), (false, 1)], b"depa"),
    (TRICKLE, [(false, 1), (false, 2)], b"departure"),
];

fn assert_buffered(
    rt: &impl Abort,
    alloc: Global,
    nature: Nature,
    wanted: [(bool, u64); 2],
    taken: &[u8],
) -> Result<(), Fail> {
    let mut writer = Writer::new(alloc, nature);
    let mut out = WriteOut::new(BufWriter::new(alloc, &mut writer)?);
    let empty = (out.flush_buffer().is_ok(), out.failures());
    assert_sent(rt, &mut out, &[(b"departure", None, empty.1)], nature);
    let filled = (out.flush_buffer().is_ok(), out.failures());
    assert_is_at(rt, [empty, filled], wanted, "flushed into", nature);
    drop(out);
    assert_is_at(rt, writer.text.as_slice(), taken, "taken by", nature);
    Ok(())
}

#[test]
fn a_buffer_is_flushed_into_its_writer(rt: HostRuntime) -> Result<(), Fail> {
    for &(nature, flushed, taken) in BUFFERED {
        assert_buffered(&rt, rt.alloc(), nature, flushed, taken)?;
    }
    Ok(())
}

#[test]
fn a_vector_is_a_writer(rt: HostRuntime) {
    let mut out = WriteOut::new(Vec::new(rt.alloc()));
    assert_sent(&rt, &mut out, &[(b"stop_times.txt", None, 0)], FINE);
    assert_is(&rt, (out.flush(), out.failures()), (Ok(()), 0), "flushing");
}

#[test]
fn a_text_goes_out_whole_or_up_to_its_room(rt: HostRuntime) -> Result<(), Fail> {
    let text = b"departure";
    for room in 0..12 {
        let mut out = MemoryOut::new(rt.alloc(), room)?;
        let fault = write_text(&mut out, text).err();
        let found = (out.bytes(), fault, out.failures());
        let wanted = if room < 9 {
            (&text[..room], Some(OutFault { written: room }), 1)
        } else {
            (text.as_slice(), None, 0)
        };
        assert_is_at(&rt, found, wanted, "in room", room);
    }
    Ok(())
}

// What an output of ten bytes takes of each text.
const TAKEN: &[(&[u8], Result<usize, Failed>)] = &[
    (b"E07 stop", Ok(8)),
    (b"", Ok(0)),
    (b"_times.txt", Ok(2)),
    (b"imes.txt", Err(Failed)),
    (b"", Ok(0)),
];

#[test]
fn an_output_in_memory_fails_where_its_room_ends(rt: HostRuntime) -> Result<(), Fail> {
    let mut out = MemoryOut::new(rt.alloc(), 10)?;
    for (text, taken) in TAKEN {
        assert_is_at(&rt, out.write(text), *taken, "taken of", *text);
    }
    let found = (out.bytes(), out.failures());
    assert_is(&rt, found, (b"E07 stop_t".as_slice(), 1), "bytes");
    Ok(())
}
