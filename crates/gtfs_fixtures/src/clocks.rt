//! The zones of the tests.

use gtfs_days::Zone;
use gtfs_field::OutOfMemory;
use std::alloc::Global;
use std::test::Fail;

/// A zone by what it does.
#[derive(Clone, Copy, Debug, PartialEq, Eq)]
pub enum Clocks {
    Utc,
    /// One hour ahead, and two from the last Sunday in March to the last one in October.
    CentralEurope,
    /// Ten hours behind, and fourteen ahead from 2011-12-30 10:00:00 UTC on: 2011-12-30 is skipped,
    /// and begins with the day after it.
    SkipsADay,
    /// Twenty hours behind, and twenty ahead from that instant on:
    /// 2011-12-31 begins before 2011-12-30.
    GoesBack,
    /// Five hours, 21 minutes and ten seconds ahead.
    Seconds,
    /// Three hours and a half behind.
    Behind,
}

impl Clocks {
    pub const ALL: [Clocks; 6] = [
        Clocks::Utc,
        Clocks::CentralEurope,
        Clocks::SkipsADay,
        Clocks::GoesBack,
        Clocks::Seconds,
        Clocks::Behind,
    ];

    /// The zone.
    pub fn zone(self, alloc: Global) -> Result<Zone, Fail> {
        Ok(Zone::read(alloc, &self.file(alloc)?)?)
    }

    fn file(self, alloc: Global) -> Result<Vec<u8>, OutOfMemory> {
        let (counts, data, footer): ([u8; 6], &[u8], &str) = match self {
            Clocks::Utc => (ONE_TYPE, b"\0\0\0\0\0\0UTC\0", "UTC0"),
            Clocks::CentralEurope => (
                ONE_TYPE,
                b"\0\0\x0e\x10\0\0CET\0",
                "CET-1CEST,M3.5.0,M10.5.0/3",
            ),
            Clocks::SkipsADay => (
                TWO_TYPES,
                b"\0\0\0\0\x4e\xfd\x8b\xa0\x01\xff\xff\x73\x60\0\0\0\0\xc4\xe0\0\x04-10\0+14\0",
                "<+14>-14",
            ),
            Clocks::GoesBack => (
                TWO_TYPES,
                b"\0\0\0\0\x4e\xfd\x8b\xa0\x01\xff\xfe\xe6\xc0\0\0\0\x01\x19\x40\0\x04-20\0+20\0",
                "<+20>-20",
            ),
            Clocks::Seconds => (ONE_TYPE, b"\0\0\x4b\x46\0\0LMT\0", "LMT-5:21:10"),
            Clocks::Behind => (ONE_TYPE, b"\xff\xff\xce\xc8\0\0NST\0", "NST3:30"),
        };
        zone_file(alloc, counts, data, footer)
    }
}

// No transition, one type with a designation of four bytes.
const ONE_TYPE: [u8; 6] = [0, 0, 0, 0, 1, 4];

// One transition between two types.
const TWO_TYPES: [u8; 6] = [0, 0, 0, 1, 2, 8];

// A zone file of version 2 with that data: transitions, types and designations, and its footer.
fn zone_file(
    alloc: Global,
    counts: [u8; 6],
    data: &[u8],
    footer: &str,
) -> Result<Vec<u8>, OutOfMemory> {
    let mut file = Vec::new(alloc);
    push_zone(&mut file, counts, data, footer)?;
    Ok(file)
}

fn push_zone(
    file: &mut Vec<u8>,
    counts: [u8; 6],
    data: &[u8],
    footer: &str,
) -> Result<(), OutOfMemory> {
    push_header(file, ONE_TYPE)?;
    file.extend_from_slice(b"\0\0\0\0\0\0UTC\0")?;
    push_header(file, counts)?;
    file.extend_from_slice(data)?;
    file.push(b'\n')?;
    file.extend_from_slice(footer.as_bytes())?;
    file.push(b'\n')?;
    Ok(())
}

// A header: how many UT indicators, standard indicators, leap seconds, transitions,
// types and bytes of designations follow.
fn push_header(file: &mut Vec<u8>, counts: [u8; 6]) -> Result<(), OutOfMemory> {
    file.extend_from_slice(b"TZif2")?;
    file.extend_from_slice(&[0; 15])?;
    for count in counts {
        file.extend_from_slice(&[0, 0, 0, count])?;
    }
    Ok(())
}
