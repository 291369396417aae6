//! Zones with the origins of their days and what their clocks show.
ghost use Rattle.std.specs.Prelude.{◌≤◌, length};

use crate::assertions::{assert_is, assert_is_at};
use gtfs_days::{Civil, CivilFault, Zone, ZoneClock, ZoneFault};
use gtfs_field::{Day, OutOfMemory};
use std::alloc::Global;
use std::process::Abort;
use std::test::Fail;

mod cities;

// A header of a zone file: a version, and how many UT indicators, standard indicators, leap
// seconds, transitions, types and bytes of designations follow.
fn push_header(file: &mut Vec<u8>, counts: [u8; 6]) -> Result<(), OutOfMemory> {
    file.extend_from_slice(b"TZif2")?;
    file.extend_from_slice(&[0; 15])?;
    for count in counts {
        file.extend_from_slice(&[0, 0, 0, count])?;
    }
    Ok(())
}

// A zone file of version 2 by its second part: what its header counts, its transitions, types and
// designations, and its footer.
#[derive(Drop)]
struct ZoneFile {
    counts: [u8; 6],
    rows: &'static [u8],
    footer: &'static str,
}

impl ZoneFile {
    fn bytes(&self, alloc: Global) -> Result<Vec<u8>, OutOfMemory> {
        let mut file = Vec::new(alloc);
        push_header(&mut file, ONE_TYPE)?;
        file.extend_from_slice(b"\0\0\0\0\0\0UTC\0")?;
        push_header(&mut file, self.counts)?;
        file.extend_from_slice(self.rows)?;
        file.push(b'\n')?;
        file.extend_from_slice(self.footer.as_bytes())?;
        file.push(b'\n')?;
        Ok(file)
    }

    fn zone(&self, alloc: Global) -> Result<Zone, Fail> {
        Ok(Zone::read(alloc, &self.bytes(alloc)?)?)
    }
}

// No transition, and one type with a designation of four bytes.
const ONE_TYPE: [u8; 6] = [0, 0, 0, 0, 1, 4];

// One transition between two types.
const TWO_TYPES: [u8; 6] = [0, 0, 0, 1, 2, 8];

const UTC: ZoneFile = ZoneFile {
    counts: ONE_TYPE,
    rows: b"\0\0\0\0\0\0UTC\0",
    footer: "UTC0",
};

// One hour ahead, and two from the last Sunday in March to the last one in October.
const CENTRAL_EUROPE: ZoneFile = ZoneFile {
    counts: ONE_TYPE,
    rows: b"\0\0\x0e\x10\0\0CET\0",
    footer: "CET-1CEST,M3.5.0,M10.5.0/3",
};

// Ten hours behind, and fourteen ahead from 2011-12-30 10:00:00 UTC on: 2011-12-30 is skipped.
const SKIPS_A_DAY: ZoneFile = ZoneFile {
    counts: TWO_TYPES,
    rows: b"\0\0\0\0\x4e\xfd\x8b\xa0\x01\xff\xff\x73\x60\0\0\0\0\xc4\xe0\0\x04-10\0+14\0",
    footer: "<+14>-14",
};

// Twenty hours behind, and twenty ahead from the same instant on: origins go back.
const GOES_BACK: ZoneFile = ZoneFile {
    counts: TWO_TYPES,
    rows: b"\0\0\0\0\x4e\xfd\x8b\xa0\x01\xff\xfe\xe6\xc0\0\0\0\x01\x19\x40\0\x04-20\0+20\0",
    footer: "<+20>-20",
};

// The footer says one hour ahead where the last transition says fourteen.
const CONTRADICTS_ITSELF: ZoneFile = ZoneFile {
    footer: "CET-1",
    ..SKIPS_A_DAY
};

// Days with the instants at which they begin.
type Origins = &'static [(i32, i64)];

// Each zone with days of 2024 or of the end of 2011.
const ORIGINS: &[(ZoneFile, Origins)] = &[
    (UTC, &[(19_814, 1_711_929_600)]), // 2024-04-01
    (
        CENTRAL_EUROPE,
        // 2024-03-31 and 2024-10-27
        &[(19_813, 1_711_836_000), (20_023, 1_729_983_600)],
    ),
    (
        SKIPS_A_DAY,
        // 2011-12-30 and 2011-12-31
        &[(15_338, 1_325_239_200), (15_339, 1_325_239_200)],
    ),
    (
        GOES_BACK,
        &[(15_338, 1_325_275_200), (15_339, 1_325_217_600)],
    ),
];

// The instant at which the service day of this number begins. None where there is no such day.
fn origin_of(alloc: Global, zone: &Zone, number: i32) -> Option<i64> {
    if number < -25_567 || number > 2_932_531 {
        return None;
    }
    let day = Day::from_number(number);
    let origin = zone.origin(alloc, day).ok()?;
    Some(origin)
}

// The zone begins these days at these instants.
fn assert_origins(rt: &impl Abort, alloc: Global, zone: &Zone, origins: Origins) {
    for &(number, origin) in origins {
        let found = origin_of(alloc, zone, number);
        assert_is_at(rt, found, Some(origin), "origin of day", number);
    }
}

#[test]
fn origins_lie_twelve_hours_before_noon(rt: HostRuntime) -> Result<(), Fail> {
    for (file, origins) in ORIGINS {
        assert_origins(&rt, rt.alloc(), &file.zone(rt.alloc())?, origins);
    }
    Ok(())
}

const LENGTHS: &[(ZoneFile, usize)] = &[
    (UTC, 114),
    (CENTRAL_EUROPE, 136),
    (SKIPS_A_DAY, 137),
    (GOES_BACK, 137),
];

#[test]
fn files_have_their_lengths(rt: HostRuntime) -> Result<(), Fail> {
    for (file, len) in LENGTHS {
        let bytes = file.bytes(rt.alloc())?;
        assert_is_at(&rt, bytes.len(), *len, "length of", file.footer);
    }
    Ok(())
}

// That many zero bytes.
fn zeros(alloc: Global, len: usize) -> Result<Vec<u8>, OutOfMemory> {
    vec![in alloc; 0; len]
}

// Why the bytes are no zone file, if they are none.
fn fault_of(alloc: Global, bytes: &[u8]) -> Option<ZoneFault> {
    Zone::read(alloc, bytes).err()
}

// What the file's bytes before `end` are read as.
fn cut(alloc: Global, file: &[u8], end: usize) -> Option<ZoneFault>
    requires { end ≤ length file.now }
{
    fault_of(alloc, &file[..end])
}

// A file that is cut is read or refused, and refused where not even its first header is whole.
fn assert_cuts(rt: &impl Abort, alloc: Global, file: &[u8]) {
    for end in 0..file.len() {
        let fault = cut(alloc, file, end);
        let is_memory = fault == Some(ZoneFault::OutOfMemory);
        assert_is_at(rt, is_memory, false, "no memory, cut before byte", end);
        if end < 44 {
            let unreadable = Some(ZoneFault::Unreadable);
            assert_is_at(rt, fault, unreadable, "cut before byte", end);
        }
    }
    assert_is(rt, fault_of(alloc, file), None, "the whole file");
}

#[test]
fn files_cut_at_each_byte_are_read_or_refused(rt: HostRuntime) -> Result<(), Fail> {
    for (file, _) in LENGTHS {
        assert_cuts(&rt, rt.alloc(), &file.bytes(rt.alloc())?);
    }
    Ok(())
}

#[test]
fn bytes_that_are_no_zone_file_are_unreadable(rt: HostRuntime) -> Result<(), Fail> {
    for len in [0, 1_048_576, 1_048_577] {
        let fault = fault_of(rt.alloc(), &zeros(rt.alloc(), len)?);
        let unreadable = Some(ZoneFault::Unreadable);
        assert_is_at(&rt, fault, unreadable, "fault of so many bytes:", len);
    }
    Ok(())
}

// The file of UTC with so many bytes after its footer.
fn longer_utc(alloc: Global, more: usize) -> Result<Vec<u8>, OutOfMemory> {
    let mut file = UTC.bytes(alloc)?;
    file.extend_from_slice(&zeros(alloc, more)?)?;
    Ok(file)
}

// Bytes after the footer do not matter, so that the file grows up to the limit and past it.
#[test]
fn the_limit_is_included(rt: HostRuntime) -> Result<(), Fail> {
    for (len, fault) in [(1_048_576, None), (1_048_577, Some(ZoneFault::Unreadable))] {
        let file = longer_utc(rt.alloc(), len - 114)?;
        assert_is(&rt, file.len(), len, "length");
        let found = fault_of(rt.alloc(), &file);
        assert_is_at(&rt, found, fault, "fault of so many bytes:", len);
    }
    Ok(())
}

#[test]
fn a_footer_that_contradicts_the_table_is_unreadable(rt: HostRuntime) -> Result<(), Fail> {
    let file = CONTRADICTS_ITSELF.bytes(rt.alloc())?;
    let fault = fault_of(rt.alloc(), &file);
    assert_is(&rt, fault, Some(ZoneFault::Unreadable), "fault");
    Ok(())
}

// What the clock shows: year, month, day, hour, minute, second and offset.
type Shown = (i16, u8, u8, u8, u8, u8, i32);

// Instants with what the clock shows at them.
type Clocks = &'static [(i64, Shown)];

// At these instants the zone's clock shows this.
fn assert_clocks(rt: &impl Abort, alloc: Global, zone: &Zone, clocks: Clocks) {
    for &(instant, (year, month, day, hour, minute, second, offset)) in clocks {
        let civil = Civil {
            year,
            month,
            day,
            hour,
            minute,
            second,
            offset,
        };
        let shown = zone.civil(alloc, instant);
        assert_is_at(rt, shown, Ok(civil), "shown at", instant);
    }
}

const CLOCKS: &[(ZoneFile, Clocks)] = &[
    (UTC, &[(1_711_958_400, (2024, 4, 1, 8, 0, 0, 0))]),
    (
        CENTRAL_EUROPE,
        &[
            (1_711_837_800, (2024, 3, 30, 23, 30, 0, 3_600)),
            (1_729_989_000, (2024, 10, 27, 2, 30, 0, 7_200)),
            (1_729_992_600, (2024, 10, 27, 2, 30, 0, 3_600)),
        ],
    ),
    (
        SKIPS_A_DAY,
        &[(1_325_268_000, (2011, 12, 31, 8, 0, 0, 50_400))],
    ),
    (
        GOES_BACK,
        &[
            (1_325_246_400, (2011, 12, 31, 8, 0, 0, 72_000)),
            (1_325_304_000, (2012, 1, 1, 0, 0, 0, 72_000)),
        ],
    ),
];

#[test]
fn clocks_show_local_time(rt: HostRuntime) -> Result<(), Fail> {
    for (file, clocks) in CLOCKS {
        assert_clocks(&rt, rt.alloc(), &file.zone(rt.alloc())?, clocks);
    }
    Ok(())
}

// A zone, an instant, the seconds of a step, and how many steps are made from the instant on.
const WALKS: &[(ZoneFile, i64, i64, i64)] = &[
    (UTC, 1_711_958_400, 1_801, 200),
    (CENTRAL_EUROPE, 1_704_067_200, 7_207, 5_000),
    (CENTRAL_EUROPE, 1_740_000_000, -7_207, 5_000),
    (CENTRAL_EUROPE, 1_711_846_795, 1, 10),
    (CENTRAL_EUROPE, 1_729_990_795, 1, 10),
    (CENTRAL_EUROPE, 1_729_990_800, 0, 3),
    (SKIPS_A_DAY, 1_325_100_000, 601, 500),
    (GOES_BACK, 1_325_200_000, 601, 500),
    (UTC, 253_402_207_195, 1, 10),
    (CENTRAL_EUROPE, 253_402_120_000, 7_207, 20),
    (CENTRAL_EUROPE, -377_705_023_205, 1, 10),
];

// A clock that is looked at step after step, also in the moment of a change and the other way,
// shows what the zone does.
#[test]
fn a_clock_shows_what_its_zone_does(rt: HostRuntime) -> Result<(), Fail> {
    for (file, from, step, steps) in WALKS {
        let zone = file.zone(rt.alloc())?;
        let mut clock = ZoneClock::new(&zone);
        for number in 0..*steps {
            let instant = from.saturating_add(step.saturating_mul(number));
            let shown = zone.civil(rt.alloc(), instant);
            if shown.is_ok() {
                assert_is_at(&rt, Ok(clock.at(instant)), shown, "clock at", instant);
            }
        }
    }
    Ok(())
}

// The first and the last instant.
const ENDS: Clocks = &[
    (-377_705_023_201, (-9999, 1, 2, 1, 59, 59, 0)),
    (253_402_207_200, (9999, 12, 30, 22, 0, 0, 0)),
];

#[test]
fn instants_have_ends(rt: HostRuntime) -> Result<(), Fail> {
    let zone = UTC.zone(rt.alloc())?;
    for instant in [i64::MIN, -377_705_023_202, 253_402_207_201, i64::MAX] {
        let shown = zone.civil(rt.alloc(), instant);
        let fault = Err(CivilFault::OutOfRange);
        assert_is_at(&rt, shown, fault, "shown at", instant);
    }
    assert_clocks(&rt, rt.alloc(), &zone, ENDS);
    Ok(())
}

// The zone of the file has these days and clocks.
fn assert_city(
    rt: &impl Abort,
    alloc: Global,
    file: &[u8],
    origins: Origins,
    clocks: Clocks,
) -> Result<(), Fail> {
    let zone = Zone::read(alloc, file)?;
    assert_origins(rt, alloc, &zone, origins);
    assert_clocks(rt, alloc, &zone, clocks);
    Ok(())
}

// Expected values by `zoneinfo` of Python 3, over the same files.

const BERLIN_ORIGINS: Origins = &[
    (-25_567, -2_208_992_400), // 1900-01-01
    (-19_604, -1_693_789_200), // 1916-04-30
    (-8_988, -776_574_000), // 1945-05-24
    (3_748, 323_820_000), // 1980-04-06
    (19_812, 1_711_753_200), // 2024-03-30
    (19_813, 1_711_836_000), // 2024-03-31
    (19_814, 1_711_922_400), // 2024-04-01
    (20_022, 1_729_893_600), // 2024-10-26
    (20_023, 1_729_983_600), // 2024-10-27
    (20_024, 1_730_070_000), // 2024-10-28
    (24_923, 2_153_340_000), // 2038-03-28
    (2_932_531, 253_370_674_800), // 9998-12-31
];

const BERLIN_CLOCKS: Clocks = &[
    (-2_500_000_000, (1890, 10, 11, 20, 26, 48, 3_208)),
    (0, (1970, 1, 1, 1, 0, 0, 3_600)),
    (1_711_846_799, (2024, 3, 31, 1, 59, 59, 3_600)),
    (1_711_846_800, (2024, 3, 31, 3, 0, 0, 7_200)),
    (1_729_990_799, (2024, 10, 27, 2, 59, 59, 7_200)),
    (1_729_990_800, (2024, 10, 27, 2, 0, 0, 3_600)),
    (253_370_764_800, (9999, 1, 1, 1, 0, 0, 3_600)),
];

#[test]
fn days_and_clocks_of_berlin(rt: HostRuntime) -> Result<(), Fail> {
    let (origins, clocks) = (BERLIN_ORIGINS, BERLIN_CLOCKS);
    assert_city(&rt, rt.alloc(), &cities::BERLIN, origins, clocks)
}

const NEW_YORK_ORIGINS: Origins = &[
    (-25_567, -2_208_970_800), // 1900-01-01
    (-977, -84_398_400), // 1967-04-30
    (19_791, 1_709_960_400), // 2024-03-09
    (19_792, 1_710_043_200), // 2024-03-10
    (19_793, 1_710_129_600), // 2024-03-11
    (20_029, 1_730_520_000), // 2024-11-02
    (20_030, 1_730_610_000), // 2024-11-03
    (20_031, 1_730_696_400), // 2024-11-04
    (2_932_348, 253_354_881_600), // 9998-07-01
];

const NEW_YORK_CLOCKS: Clocks = &[
    (-2_717_650_801, (1883, 11, 18, 12, 3, 57, -17_762)),
    (-2_717_650_800, (1883, 11, 18, 12, 0, 0, -18_000)),
    (1_710_053_999, (2024, 3, 10, 1, 59, 59, -18_000)),
    (1_710_054_000, (2024, 3, 10, 3, 0, 0, -14_400)),
    (1_730_613_599, (2024, 11, 3, 1, 59, 59, -14_400)),
    (1_730_613_600, (2024, 11, 3, 1, 0, 0, -18_000)),
];

#[test]
fn days_and_clocks_of_new_york(rt: HostRuntime) -> Result<(), Fail> {
    let (origins, clocks) = (NEW_YORK_ORIGINS, NEW_YORK_CLOCKS);
    assert_city(&rt, rt.alloc(), &cities::NEW_YORK, origins, clocks)
}

const LORD_HOWE_ORIGINS: Origins = &[
    (4_077, 352_215_000), // 1981-03-01
    (19_819, 1_712_322_000), // 2024-04-06
    (19_820, 1_712_410_200), // 2024-04-07
    (19_821, 1_712_496_600), // 2024-04-08
    (20_001, 1_728_048_600), // 2024-10-05
    (20_002, 1_728_133_200), // 2024-10-06
    (20_003, 1_728_219_600), // 2024-10-07
];

const LORD_HOWE_CLOCKS: Clocks = &[
    (1_712_415_599, (2024, 4, 7, 1, 59, 59, 39_600)),
    (1_712_415_600, (2024, 4, 7, 1, 30, 0, 37_800)),
    (1_728_142_199, (2024, 10, 6, 1, 59, 59, 37_800)),
    (1_728_142_200, (2024, 10, 6, 2, 30, 0, 39_600)),
];

#[test]
fn days_and_clocks_of_lord_howe(rt: HostRuntime) -> Result<(), Fail> {
    let (origins, clocks) = (LORD_HOWE_ORIGINS, LORD_HOWE_CLOCKS);
    assert_city(&rt, rt.alloc(), &cities::LORD_HOWE, origins, clocks)
}

const APIA_ORIGINS: Origins = &[
    (-25_567, -2_208_947_584), // 1900-01-01
    (14_878, 1_285_495_200), // 2010-09-26
    (15_336, 1_325_066_400), // 2011-12-28
    (15_337, 1_325_152_800), // 2011-12-29
    (15_338, 1_325_239_200), // 2011-12-30
    (15_339, 1_325_239_200), // 2011-12-31
    (15_340, 1_325_325_600), // 2012-01-01
    (18_721, 1_617_447_600), // 2021-04-04
];

const APIA_CLOCKS: Clocks = &[
    (1_325_239_199, (2011, 12, 29, 23, 59, 59, -36_000)),
    (1_325_239_200, (2011, 12, 31, 0, 0, 0, 50_400)),
    (1_617_458_399, (2021, 4, 4, 3, 59, 59, 50_400)),
    (1_617_458_400, (2021, 4, 4, 3, 0, 0, 46_800)),
];

#[test]
fn days_and_clocks_of_apia(rt: HostRuntime) -> Result<(), Fail> {
    let (origins, clocks) = (APIA_ORIGINS, APIA_CLOCKS);
    assert_city(&rt, rt.alloc(), &cities::APIA, origins, clocks)
}

const KOLKATA_ORIGINS: Origins = &[
    (-25_567, -2_209_008_070), // 1900-01-01
    (-23_376, -2_019_706_200), // 1906-01-01
    (-10_319, -891_585_000), // 1941-10-01
    (-10_093, -872_055_000), // 1942-05-15
    (-9_984, -862_641_000), // 1942-09-01
    (-8_844, -764_141_400), // 1945-10-15
    (19_814, 1_711_909_800), // 2024-04-01
];

const KOLKATA_CLOCKS: Clocks = &[
    (-2_019_705_671, (1905, 12, 31, 23, 59, 59, 19_270)),
    (-2_019_705_670, (1906, 1, 1, 0, 8, 50, 19_800)),
    (1_711_909_800, (2024, 4, 1, 0, 0, 0, 19_800)),
];

#[test]
fn days_and_clocks_of_kolkata(rt: HostRuntime) -> Result<(), Fail> {
    let (origins, clocks) = (KOLKATA_ORIGINS, KOLKATA_CLOCKS);
    assert_city(&rt, rt.alloc(), &cities::KOLKATA, origins, clocks)
}
