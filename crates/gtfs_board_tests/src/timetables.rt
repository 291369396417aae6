//! Timetables that are refused, and that have no sheet.

use crate::assertions::assert_is;
use gtfs_board::{TableFault, Times, timetable};
use gtfs_field::read_date;
use gtfs_fixtures::feed_with;
use std::test::Fail;

// A route, a direction and a date of the small dataset, whose trip has no direction;
// and how many sheets there are, or why there are none.
const ASKED: [(&str, Option<u8>, &str, Result<usize, TableFault>); 10] = [
    ("R1", None, "20240401", Ok(1)),
    ("R1", None, "20240402", Ok(0)),
    ("R1", Some(0), "20240401", Ok(0)),
    ("R1", Some(2), "20240401", Ok(0)),
    ("R1", Some(255), "99991231", Ok(0)),
    ("R9", None, "20240401", Err(TableFault::UnknownRoute)),
    ("R9", Some(2), "99991231", Err(TableFault::UnknownRoute)),
    ("", None, "20240401", Err(TableFault::UnknownRoute)),
    ("r1", Some(0), "20240402", Err(TableFault::UnknownRoute)),
    ("10", Some(0), "20240401", Err(TableFault::UnknownRoute)),
];

#[test]
fn a_timetable_is_of_a_route_a_direction_and_a_date(rt: HostRuntime) -> Result<(), Fail> {
    let feed = feed_with(&rt, rt.alloc(), &[])?;
    for (route, direction, date, wanted) in ASKED {
        let day = read_date(date)?;
        for times in [Times::Given, Times::Interpolated] {
            let found = match timetable(rt.alloc(), &feed, route, direction, day, times) {
                Ok(sheets) => Ok(sheets.len()),
                Err(fault) => Err(fault),
            };
            assert_is(&rt, found, wanted, format_args!("{route} {date}"));
        }
    }
    Ok(())
}
