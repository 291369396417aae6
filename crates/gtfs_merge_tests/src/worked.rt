//! Whole merges: the names and all nine files.

use crate::cases::{AT_TEN, Case, MERGED, assert_case};
use crate::{agencies, chains, cutoff, near, services, stops, transfers, trips};
use gtfs_fixtures::FileText;
use gtfs_table::File;
use std::test::Fail;

const STOPS: &str =
    "S1,,Mill,,,52.5,13.4,,0,,0,\nS2,,Lake,,,52.6,13.5,,0,,0,\nS3,,Hill,,,52.7,13.6,,0,,0,\n";

const ITSELF: Case = Case {
    what: "the small dataset with itself",
    a: &[],
    b: &[],
    report: "joined agency 1\njoined stop 3\njoined route 1\njoined service 1\njoined trip 1\n",
    written: &[
        (File::Agency, ",Metro,http://m.example,UTC,,,,\n"),
        (File::Stops, STOPS),
        (File::Routes, "R1,,10,,,3,,FFFFFF,000000,\n"),
        (File::Trips, "R1,C1,T1,,,,0,0\n"),
        (
            File::StopTimes,
            "T1,08:00:00,08:00:00,S1,1,,0,0,\nT1,08:10:00,08:10:00,S2,2,,0,0,\n",
        ),
        (File::Calendar, "C1,1,1,1,1,1,1,1,20240401,20240401\n"),
        (File::CalendarDates, ""),
        (File::Frequencies, ""),
        (File::Transfers, ""),
    ],
    ..MERGED
};

/// A trip of A has the first new name of the other.
pub(crate) const WITH_SECOND: &[FileText] = &[
    (
        "trips.txt",
        "route_id,service_id,trip_id\nR1,C1,T1\nR1,C1,T1_merged_1\n",
    ),
    (
        "stop_times.txt",
        "trip_id,arrival_time,departure_time,stop_id,stop_sequence\n\
T1,08:00:00,08:00:00,S1,1\nT1,08:10:00,08:10:00,S2,2\n\
T1_merged_1,09:00:00,09:00:00,S1,1\nT1_merged_1,09:10:00,09:10:00,S2,2\n",
    ),
];

const OTHER_TIMES: Case = Case {
    what: "a trip at other times",
    a: WITH_SECOND,
    b: &[AT_TEN],
    report: "B\ttrip\tT1\tT1_merged_2\n\
joined agency 1\njoined stop 3\njoined route 1\njoined service 1\njoined trip 0\n",
    written: &[
        (File::Agency, ",Metro,http://m.example,UTC,,,,\n"),
        (File::Stops, STOPS),
        (File::Routes, "R1,,10,,,3,,FFFFFF,000000,\n"),
        (
            File::Trips,
            "R1,C1,T1,,,,0,0\nR1,C1,T1_merged_1,,,,0,0\nR1,C1,T1_merged_2,,,,0,0\n",
        ),
        (
            File::StopTimes,
            "T1,08:00:00,08:00:00,S1,1,,0,0,\nT1,08:10:00,08:10:00,S2,2,,0,0,\n\
T1_merged_1,09:00:00,09:00:00,S1,1,,0,0,\nT1_merged_1,09:10:00,09:10:00,S2,2,,0,0,\n\
T1_merged_2,10:00:00,10:00:00,S1,1,,0,0,\nT1_merged_2,10:10:00,10:10:00,S2,2,,0,0,\n",
        ),
        (File::Calendar, "C1,1,1,1,1,1,1,1,20240401,20240401\n"),
        (File::CalendarDates, ""),
        (File::Frequencies, ""),
        (File::Transfers, ""),
    ],
    ..MERGED
};

const WITH_TRANSFER: Case = Case {
    what: "a transfer of a renamed trip",
    b: &[
        AT_TEN,
        (
            "transfers.txt",
            "from_stop_id,to_stop_id,from_trip_id,transfer_type,min_transfer_time\nS1,S2,T1,2,60\n",
        ),
    ],
    written: &[
        (
            File::Trips,
            "R1,C1,T1,,,,0,0\nR1,C1,T1_merged_1,,,,0,0\nR1,C1,T1_merged_2,,,,0,0\n",
        ),
        (File::Transfers, "S1,S2,,,T1_merged_2,,2,60\n"),
    ],
    ..OTHER_TIMES
};

/// The agency of the small dataset with another name.
pub(crate) const RAIL: FileText = (
    "agency.txt",
    "agency_name,agency_url,agency_timezone\nRail,http://m.example,UTC\n",
);

const TWO_AGENCIES: Case = Case {
    what: "two agencies without ids",
    a: &[],
    b: &[RAIL],
    report: "A\tagency\t\tagency_merged_1\nB\tagency\t\tagency_merged_2\nB\troute\tR1\tR1_merged_1\n\
B\ttrip\tT1\tT1_merged_1\n\
joined agency 0\njoined stop 3\njoined route 0\njoined service 1\njoined trip 0\n",
    written: &[
        (
            File::Agency,
            "agency_merged_1,Metro,http://m.example,UTC,,,,\nagency_merged_2,Rail,http://m.example,UTC,,,,\n",
        ),
        (File::Stops, STOPS),
        (
            File::Routes,
            "R1,agency_merged_1,10,,,3,,FFFFFF,000000,\nR1_merged_1,agency_merged_2,10,,,3,,FFFFFF,000000,\n",
        ),
        (
            File::Trips,
            "R1,C1,T1,,,,0,0\nR1_merged_1,C1,T1_merged_1,,,,0,0\n",
        ),
        (
            File::StopTimes,
            "T1,08:00:00,08:00:00,S1,1,,0,0,\nT1,08:10:00,08:10:00,S2,2,,0,0,\n\
T1_merged_1,08:00:00,08:00:00,S1,1,,0,0,\nT1_merged_1,08:10:00,08:10:00,S2,2,,0,0,\n",
        ),
        (File::Calendar, "C1,1,1,1,1,1,1,1,20240401,20240401\n"),
        (File::CalendarDates, ""),
        (File::Frequencies, ""),
        (File::Transfers, ""),
    ],
    ..MERGED
};

// All merges that were worked out.
const ALL: [&[Case]; 17] = [
    &[ITSELF, OTHER_TIMES, WITH_TRANSFER, TWO_AGENCIES],
    agencies::CASES,
    stops::CASES,
    services::CASES,
    trips::OF_TRIPS,
    trips::OF_STOP_TIMES,
    trips::OF_FREQUENCIES,
    &[trips::HEADSIGNS],
    transfers::CASES,
    chains::CASES,
    near::DISTANCES,
    near::STOPS,
    near::STATIONS,
    near::TRANSFERS,
    cutoff::WEEKS,
    cutoff::EXCEPTIONS,
    cutoff::JOINED,
];

#[test]
fn merges_have_the_names_and_files_that_were_worked_out(rt: HostRuntime) -> Result<(), Fail> {
    for cases in ALL {
        for case in cases {
            assert_case(&rt, rt.alloc(), case)?;
        }
    }
    Ok(())
}
