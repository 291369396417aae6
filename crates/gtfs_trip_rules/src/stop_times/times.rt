ghost use Rattle.std.specs.Prelude.{◌≡◌, ◌&&◌, int_lt, is_some, option_map, pos, OnOk};
ghost use Rattle.gtfs_table.specs.Tables.{Dataset};
ghost use Rattle.gtfs_trip_rules.specs.StopTimeFields.{is_blank, value_in};
ghost use Rattle.gtfs_trip_rules.specs.StopTimePicks.{in_times};
ghost use Rattle.gtfs_trip_rules.specs.StopTimes.{IsRow, ReportsOfRow};
ghost use Rattle.gtfs_schema.specs.FieldValues.{if_both};

use crate::stop_times::columns::ReadStopTime;
use crate::stop_times::problem;
use crate::stop_times::reading::Reading;
use gtfs_field::{Clock, OutOfMemory};
use gtfs_schema::{Code, Found};

// Reports a row that is left before it is reached, or that has one of its two times alone.
pub(crate) fn report_times<'a>(
    stop_time: &ReadStopTime<'a>,
    found: &mut Found<'a>,
) -> Result<(), OutOfMemory>
    ensures { OnOk result ((d : Dataset) → IsRow d stop_time.now
        → ReportsOfRow d in_times stop_time.now.row found.old found.new) }
{
    let row = stop_time.row;
    let arrival = &stop_time.arrival_time;
    let departure = &stop_time.departure_time;
    let early = problem(row, Code::E16, "departure_time");
    found.report_if(early, is_before(departure.value(), arrival.value()))?;
    let lacks_arrival = problem(row, Code::W08, "arrival_time");
    found.report_if(lacks_arrival, is_alone(departure, arrival))?;
    let lacks_departure = problem(row, Code::W08, "departure_time");
    found.report_if(lacks_departure, is_alone(arrival, departure))
}

// Whether both times are there, and the first lies before the second.
fn is_before(first: Option<Clock>, second: Option<Clock>) -> bool
    ensures { result ≡ if_both (option_map pos first) (option_map pos second) int_lt }
{
    match (first, second) {
        (Some(first), Some(second)) => first.seconds() < second.seconds(),
        _ => false,
    }
}

// Whether a time is there beside an empty one.
fn is_alone(time: &Reading<Clock>, other: &Reading<Clock>) -> bool
    ensures { result ≡ (is_blank other.now && is_some (value_in time.now)) }
{
    other.is_empty() && time.value().is_some()
}
