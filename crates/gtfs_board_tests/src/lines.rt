//! Lines of departures and sheets of timetables that no feed has.

use crate::assertions::{assert_is, assert_text};
use gtfs_board::{Departure, Key, Mark, Sheet, push_line, push_sheet};
use gtfs_days::Zone;
use gtfs_field::{Clock, Day, List};
use gtfs_fixtures::Clocks;
use std::alloc::Global;
use std::test::Fail;

// The line of a departure, appended to this text, if a clock shows the instant.
fn line_after(
    alloc: Global,
    before: &str,
    zone: &Zone,
    departure: &Departure<'_>,
) -> Result<String, Fail> {
    let _clock = zone.civil(alloc, departure.key.instant)?;
    let mut text = String::from_str(alloc, before)?;
    push_line(alloc, &mut text, zone, departure)?;
    Ok(text)
}

// The line of a departure at an instant.
fn line_at(alloc: Global, zone: &Zone, instant: i64) -> Result<String, Fail> {
    let departure = Departure {
        key: Key {
            instant,
            trip: "T1",
            run: 28_800,
            seq: 1,
            // 2024-04-01
            day: Day::from_number(19_814),
        },
        stop: "S1",
        route: "10",
        headsign: "",
        mark: Mark::Scheduled,
    };
    line_after(alloc, "", zone, &departure)
}

// How far each zone is ahead; and in UTC the first and the last instant that a clock shows,
// and years of three digits and fewer.
const SHOWN: [(Clocks, i64, &str); 12] = [
    (Clocks::Utc, 1_711_958_400, "2024-04-01 08:00:00+00:00"),
    (
        Clocks::CentralEurope,
        1_711_958_400,
        "2024-04-01 10:00:00+02:00",
    ),
    (
        Clocks::SkipsADay,
        1_711_958_400,
        "2024-04-01 22:00:00+14:00",
    ),
    (Clocks::GoesBack, 1_711_958_400, "2024-04-02 04:00:00+20:00"),
    (
        Clocks::Seconds,
        1_711_958_400,
        "2024-04-01 13:21:10+05:21:10",
    ),
    (Clocks::Behind, 1_711_958_400, "2024-04-01 04:30:00-03:30"),
    (Clocks::Utc, -377_705_023_201, "-9999-01-02 01:59:59+00:00"),
    (Clocks::Utc, -62_167_219_201, "-0001-12-31 23:59:59+00:00"),
    (Clocks::Utc, -62_167_219_200, "0000-01-01 00:00:00+00:00"),
    (Clocks::Utc, -30_610_224_000, "1000-01-01 00:00:00+00:00"),
    (Clocks::Utc, 0, "1970-01-01 00:00:00+00:00"),
    (Clocks::Utc, 253_402_207_200, "9999-12-30 22:00:00+00:00"),
];

#[test]
fn a_line_has_the_clock_of_its_zone(rt: HostRuntime) -> Result<(), Fail> {
    for (clocks, instant, clock) in SHOWN {
        let zone = clocks.zone(rt.alloc())?;
        let wanted = format!(in rt.alloc();
            "@{instant}/T1/28800/1/20240401\t{clock}\tS1\t10\t\ts\n"
        )?;
        let text = line_at(rt.alloc(), &zone, instant);
        assert_text(&rt, text, wanted.as_str(), clock)?;
    }
    Ok(())
}

// With the widest run and sequence, beyond those of any feed.
#[test]
fn a_line_is_appended(rt: HostRuntime) -> Result<(), Fail> {
    let departure = Departure {
        key: Key {
            instant: 1_711_958_400,
            trip: "T1",
            run: u32::MAX,
            seq: u32::MAX,
            // 2024-04-01
            day: Day::from_number(19_814),
        },
        stop: "S/2",
        route: "Long way",
        headsign: "To \"Mill\"",
        mark: Mark::Frequency,
    };
    let zone = Clocks::Utc.zone(rt.alloc())?;
    let wanted = "before\n@1711958400/T1/4294967295/4294967295/20240401\t\
2024-04-01 08:00:00+00:00\tS/2\tLong way\tTo \"Mill\"\tf\n";
    let text = line_after(rt.alloc(), "before\n", &zone, &departure);
    assert_text(&rt, text, wanted, "the line")
}

// Two runs of a trip, of whose stops the second is untimed. Trips have direction 0, 1 or none,
// and a sheet made by hand any other.
#[test]
fn a_sheet_is_appended(rt: HostRuntime) -> Result<(), Fail> {
    let alloc = rt.alloc();
    let first = Some(Clock::from_seconds(28_800));
    let last = Some(Clock::from_seconds(7_199_997));
    let sheet = Sheet {
        route: "R1",
        direction: Some(255),
        // 2024-04-01
        day: Day::from_number(19_814),
        stops: List::new(vec![in alloc; "S1", "S2"]?),
        runs: List::new(vec![in alloc; (28_800, "T1"), (3_599_999, "T 2")]?),
        times: List::new(vec![in alloc;
            List::new(vec![in alloc; first, last]?),
            List::new(vec![in alloc; None, None]?),
        ]?),
    };
    let mut text = String::from_str(alloc, "before\n")?;
    push_sheet(alloc, &mut text, &sheet)?;
    let wanted = "before\n== R1 255 20240401\ntrip\tT1\tT 2\nS1\t08:00:00\t1999:59:57\nS2\t-\t-\n";
    assert_is(&rt, text.as_str(), wanted, "the sheet");
    Ok(())
}
