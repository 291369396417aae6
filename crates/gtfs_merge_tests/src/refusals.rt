//! Feeds that are not merged:
//! zones that differ, files that are too long, and memory that is refused.

use crate::assertions::assert_is;
use crate::cases::{AT_TEN, Asked, PLAIN, assert_gives, options_of};
use crate::cutoff::MOVED_AND_CUT;
use crate::worked::WITH_SECOND;
use gtfs_feed::Feed;
use gtfs_fixtures::{FileText, feed_with};
use gtfs_merge::{MergeFault, Merged, merge, merge_owned, zones_differ};
use std::alloc::Global;
use std::hash::RandomState;
use std::process::Abort;
use std::random::RandomSource;
use std::test::Fail;

// Why two changes to the small dataset are not merged, lent or given up,
// and whether their zones differ.
fn refused<R: Abort + RandomSource>(
    rt: &R,
    alloc: Global,
    (a, b): (&[FileText], &[FileText]),
    file_limit: u64,
    asked: Asked,
) -> Result<(Option<MergeFault>, bool), Fail> {
    let a = feed_with(rt, alloc, a)?;
    let b = feed_with(rt, alloc, b)?;
    let options = options_of(rt, file_limit, asked);
    let fault = fault_of(merge(alloc, RandomState::new(rt)?, &a, &b, &options));
    let differ = zones_differ(&a, &b);
    let owned = fault_of(merge_owned(alloc, RandomState::new(rt)?, a, b, &options));
    assert_is(rt, owned, fault, "given up");
    Ok((fault, differ))
}

// Why there is no merge.
fn fault_of(answer: Result<Merged, MergeFault>) -> Option<MergeFault> {
    match answer {
        Ok(_) => None,
        Err(fault) => Some(fault),
    }
}

const SMALL_TWICE: (&[FileText], &[FileText]) = (&[], &[]);

const THREE_TRIPS: (&[FileText], &[FileText]) = (WITH_SECOND, &[AT_TEN]);

// Twenty days that are added to the service of the first feed.
const TWENTY_DAYS: (&[FileText], &[FileText]) = (
    &[(
        "calendar_dates.txt",
        "service_id,date,exception_type\n\
C1,20240501,1\nC1,20240502,1\nC1,20240503,1\nC1,20240504,1\nC1,20240505,1\n\
C1,20240506,1\nC1,20240507,1\nC1,20240508,1\nC1,20240509,1\nC1,20240510,1\n\
C1,20240511,1\nC1,20240512,1\nC1,20240513,1\nC1,20240514,1\nC1,20240515,1\n\
C1,20240516,1\nC1,20240517,1\nC1,20240518,1\nC1,20240519,1\nC1,20240520,1\n",
    )],
    &[],
);

// A day before those.
const ON_2_APRIL: Asked = Asked {
    near: None,
    cutoff: Some("20240402"),
};

// Two feeds, what is asked for, and how long the longest file of their merge is: stops.txt of the
// small dataset with itself, stop_times.txt with three trips, calendar_dates.txt with twenty days,
// and stop_times.txt with two trips where those days are cut.
const LONGEST: &[((&[FileText], &[FileText]), Asked, u64)] = &[
    (SMALL_TWICE, PLAIN, 226),
    (THREE_TRIPS, PLAIN, 336),
    (TWENTY_DAYS, PLAIN, 311),
    (TWENTY_DAYS, ON_2_APRIL, 254),
];

#[test]
fn a_file_is_as_long_as_the_limit_and_no_longer(rt: HostRuntime) -> Result<(), Fail> {
    for (feeds, asked, longest) in LONGEST {
        for (limit, fault) in [
            (0, Some(MergeFault::TooLarge)),
            (10, Some(MergeFault::TooLarge)),
            (*longest - 1, Some(MergeFault::TooLarge)),
            (*longest, None),
            (u64::MAX, None),
        ] {
            let found = refused(&rt, rt.alloc(), *feeds, limit, *asked)?;
            assert_is(&rt, found, (fault, false), limit);
        }
    }
    Ok(())
}

// The agency of the small dataset in another zone.
const BERLIN: FileText = (
    "agency.txt",
    "agency_name,agency_url,agency_timezone\nMetro,http://m.example,Europe/Berlin\n",
);

// The same zone by another name.
const LOWER: FileText = (
    "agency.txt",
    "agency_name,agency_url,agency_timezone\nMetro,http://m.example,utc\n",
);

const TWO_OF_BERLIN: &[FileText] = &[
    (
        "agency.txt",
        "agency_id,agency_name,agency_url,agency_timezone\n\
M,Metro,http://m.example,Europe/Berlin\nC,City,http://c.example,Europe/Berlin\n",
    ),
    (
        "routes.txt",
        "route_id,agency_id,route_short_name,route_type\nR1,M,10,3\n",
    ),
];

// Of all days, on one or neither side of those that have service.
const FROM_THE_FIRST: Asked = Asked {
    near: Some(0),
    cutoff: Some("19000101"),
};

const FROM_THE_LAST: Asked = Asked {
    near: Some(0),
    cutoff: Some("99981231"),
};

// Two feeds, how long files may be, what is asked for, and whether the zones of the feeds differ,
// which is judged before lengths, and with a cutoff also where nothing is left of one of them.
const ZONES: &[((&[FileText], &[FileText]), u64, Asked, bool, &str)] = &[
    ((&[], &[BERLIN]), u64::MAX, PLAIN, true, "another zone in B"),
    ((&[BERLIN], &[]), u64::MAX, PLAIN, true, "another zone in A"),
    (
        (&[], &[LOWER]),
        u64::MAX,
        PLAIN,
        true,
        "another name of the zone",
    ),
    (
        (&[], TWO_OF_BERLIN),
        u64::MAX,
        PLAIN,
        true,
        "another zone of two agencies",
    ),
    (
        (&[BERLIN], TWO_OF_BERLIN),
        u64::MAX,
        PLAIN,
        false,
        "one zone",
    ),
    ((&[], &[AT_TEN]), u64::MAX, PLAIN, false, "other times"),
    ((&[], &[BERLIN]), 0, PLAIN, true, "before lengths"),
    (
        (&[], &[BERLIN]),
        0,
        FROM_THE_FIRST,
        true,
        "from the first day on",
    ),
    ((&[], &[BERLIN]), 0, ON_2_APRIL, true, "from 2 April on"),
    (
        (&[], &[BERLIN]),
        0,
        FROM_THE_LAST,
        true,
        "from the last day on",
    ),
];

#[test]
fn zones_of_two_names_are_not_merged(rt: HostRuntime) -> Result<(), Fail> {
    for (feeds, limit, asked, differ, what) in ZONES {
        let fault = differ.then_some(MergeFault::ZoneDiffers);
        let found = refused(&rt, rt.alloc(), *feeds, *limit, *asked)?;
        assert_is(&rt, found, (fault, *differ), what);
    }
    Ok(())
}

// A merge with all options, asked for once more where memory was refused.
// `rt try --test --fail-alloc N` refuses it.
fn merged_at_last<R: Abort + RandomSource>(
    rt: &R,
    alloc: Global,
    a: &Feed,
    b: &Feed,
) -> Result<Merged, Fail> {
    let options = options_of(rt, u64::MAX, MOVED_AND_CUT.asked);
    match merge(alloc, RandomState::new(rt)?, a, b, &options) {
        Ok(merged) => Ok(merged),
        Err(MergeFault::OutOfMemory) => Ok(merge(alloc, RandomState::new(rt)?, a, b, &options)?),
        Err(fault) => Err(Fail::from(fault)),
    }
}

#[test]
fn a_refused_merge_can_be_asked_for_again(rt: HostRuntime) -> Result<(), Fail> {
    let a = feed_with(&rt, rt.alloc(), MOVED_AND_CUT.a)?;
    let b = feed_with(&rt, rt.alloc(), MOVED_AND_CUT.b)?;
    let merged = merged_at_last(&rt, rt.alloc(), &a, &b)?;
    assert_gives(&rt, rt.alloc(), &MOVED_AND_CUT, &merged)
}

#[test]
fn faults_have_lines_and_numbers(rt: HostRuntime) -> Result<(), Fail> {
    let text = format!(in rt.alloc();
        "{}, {}, {}",
        MergeFault::ZoneDiffers,
        MergeFault::TooLarge,
        MergeFault::OutOfMemory,
    )?;
    let wanted = "zones differ, merged feed too large, out of memory";
    assert_is(&rt, text.as_str(), wanted, "the lines");
    let numbers = [
        MergeFault::ZoneDiffers as u8,
        MergeFault::TooLarge as u8,
        MergeFault::OutOfMemory as u8,
    ];
    assert_is(&rt, numbers, [1, 2, 3], "the numbers");
    Ok(())
}
