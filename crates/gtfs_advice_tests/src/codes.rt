//! The codes: the file under which each stands, its name and its text.

use crate::assertions::assert_is;
use gtfs_advice::Code;
use gtfs_table::File;

// In their order.
const CODES: &[(Code, File, &str, &str)] = &[
    (Code::AgencyWithoutRoute, File::Agency, "A01", "no route"),
    (
        Code::AddressWithoutScheme,
        File::Agency,
        "A02",
        "address without http",
    ),
    (Code::GarbledAgency, File::Agency, "A24", "garbled letters"),
    (
        Code::StopWithoutTrip,
        File::Stops,
        "A03",
        "no trip stops here",
    ),
    (
        Code::StationWithoutStop,
        File::Stops,
        "A04",
        "no stop belongs to it",
    ),
    (
        Code::StopNearZeroOrPole,
        File::Stops,
        "A05",
        "near 0,0 or a pole",
    ),
    (
        Code::StopFarFromParent,
        File::Stops,
        "A06",
        "far from its parent",
    ),
    (Code::GarbledStop, File::Stops, "A24", "garbled letters"),
    (Code::RouteWithoutTrip, File::Routes, "A07", "no trip"),
    (
        Code::RouteNamedAsAnother,
        File::Routes,
        "A08",
        "named as another one",
    ),
    (
        Code::LongShortName,
        File::Routes,
        "A09",
        "short name over 12 characters",
    ),
    (
        Code::RepeatedShortName,
        File::Routes,
        "A10",
        "long name repeats the short one",
    ),
    (
        Code::CloseColours,
        File::Routes,
        "A11",
        "colours hard to tell apart",
    ),
    (
        Code::DirectionOfSomeTrips,
        File::Routes,
        "A12",
        "direction of some trips only",
    ),
    (Code::GarbledRoute, File::Routes, "A24", "garbled letters"),
    (Code::TripWithoutHeadsign, File::Trips, "A13", "no headsign"),
    (
        Code::TripAsAnother,
        File::Trips,
        "A14",
        "same as another one",
    ),
    (Code::GarbledTrip, File::Trips, "A24", "garbled letters"),
    (
        Code::StopTwiceInARow,
        File::StopTimes,
        "A15",
        "stops twice in a row",
    ),
    (
        Code::SixStopsAtOneMoment,
        File::StopTimes,
        "A16",
        "six stops at one moment",
    ),
    (
        Code::FasterThanATrain,
        File::StopTimes,
        "A17",
        "faster than 500 km/h",
    ),
    (
        Code::NobodyGetsOnOrOff,
        File::StopTimes,
        "A18",
        "nobody gets on or off",
    ),
    (
        Code::LongerThanADay,
        File::StopTimes,
        "A19",
        "longer than a day",
    ),
    (Code::ServiceWithoutTrip, File::Calendar, "A21", "no trip"),
    (
        Code::GapInService,
        File::Calendar,
        "A22",
        "no service for two weeks",
    ),
    (
        Code::EndOfService,
        File::Calendar,
        "A23",
        "fewer than seven days left",
    ),
    (
        Code::DatesWithoutTrip,
        File::CalendarDates,
        "A21",
        "no trip",
    ),
    (
        Code::PeriodOfOneRun,
        File::Frequencies,
        "A20",
        "one run alone",
    ),
];

#[test]
fn codes_have_files_names_and_texts(rt: HostRuntime) {
    for (code, file, name, text) in CODES {
        assert_is(&rt, code.file(), *file, name);
        assert_is(&rt, code.name(), *name, text);
        assert_is(&rt, code.text(), *text, name);
    }
}

#[test]
fn codes_are_in_order(rt: HostRuntime) {
    let mut before = None;
    for (code, _, name, _) in CODES {
        assert_is(&rt, before < Some(*code), true, name);
        before = Some(*code);
    }
}
