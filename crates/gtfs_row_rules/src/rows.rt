ghost use Rattle.std.specs.Prelude.{◌≡◌, ◌≢◌, codes, map, OnOk};
ghost use Rattle.gtfs_schema.specs.PresenceRules.{has_many_agencies};
ghost use Rattle.gtfs_schema.specs.steps.FeedIds.{AreIdsOf, AreNetworkIdsOf};
ghost use Rattle.gtfs_schema.specs.steps.FoundProblems.{Reports};
ghost use Rattle.gtfs_schema.specs.steps.Ids.{first_rows};
ghost use Rattle.gtfs_schema.specs.steps.StopTypes.{AreStopTypes};
ghost use Rattle.gtfs_row_rules.specs.RowCodes.{in_rows, in_rows_of};

use crate::fields::Header;
use crate::keys::{Number, repeated_numbered, repeated_transfer};
use crate::presence::{
    has_many_agencies, has_wrong_parent, lacks_agency, lacks_end, lacks_name,
    lacks_name_or_position,
};
use crate::references::{unknown, unknown_service};
use crate::rule::{At, judge_rows};
use crate::single_keys::repeated;
use crate::spans::{ends_at_start, ends_before_start};
use crate::stop_kinds::{has_other_parent, names_other};
use crate::zones::has_other_zone;
use gtfs_field::OutOfMemory;
use gtfs_schema::{
    Code, FeedIds, Found, Ids, NetworkIds, agency_columns, calendar_columns,
    calendar_dates_columns, frequencies_columns, routes_columns, stops_columns, transfers_columns,
    trips_columns,
};
use gtfs_table::{File, Tables};
use std::alloc::Global;

/// Reports what is wrong with the rows of each file but `stop_times.txt`, in one pass over the file:
/// with the length of a row and with its fields (E06, E07, E08, E20, W01, W02, W05), with its key
/// (E09), with the rows that it names (E10, E11), and with its values beside each other (E12, E13,
/// E14, E18). The ids and the location types of stops are those of these tables.
///
/// # Errors
/// `OutOfMemory` where the problems that were found cannot grow,
/// or there is no room for the columns or the keys of a file.
pub fn report_rows<'a>(
    alloc: Global,
    tables: &'a Tables,
    ids: &FeedIds<'a>,
    types: &[Option<i64>],
    found: &mut Found<'a>,
) -> Result<(), OutOfMemory>
    requires ids { AreIdsOf tables.now ids.now }
    requires types { AreStopTypes tables.now types.now }
    ensures { OnOk result (Reports tables.now in_rows found.old found.new) }
{
    let has_many = has_many_agencies(tables);
    let network = &ids.network;
    report_agencies(alloc, tables, &network.agencies, has_many, found)?;
    report_stops(alloc, tables, &network.stops, types, found)?;
    report_routes(alloc, tables, network, has_many, found)?;
    report_trips(alloc, tables, ids, found)?;
    report_calendar(alloc, tables, &ids.calendar, found)?;
    report_calendar_dates(alloc, tables, found)?;
    report_frequencies(alloc, tables, &network.trips, found)?;
    report_transfers(alloc, tables, network, types, found)
}

fn report_agencies<'a>(
    alloc: Global,
    tables: &'a Tables,
    ids: &Ids<'a>,
    has_many: bool,
    found: &mut Found<'a>,
) -> Result<(), OutOfMemory>
    requires ids { ids.now ≡ first_rows tables.now File.Agency (codes "agency_id") }
    requires many { has_many ≡ has_many_agencies tables.now }
    ensures { OnOk result (Reports tables.now (in_rows_of File.Agency) found.old found.new) }
{
    let file = File::Agency;
    let header = Header::new(alloc, tables, file, &agency_columns())?;
    let id = repeated(tables, file, "agency_id", ids);
    let lacks_id = lacks_agency(tables, file, has_many);
    let zone = has_other_zone(tables);
    let rules = (At(Code::E13, "agency_timezone", zone), ());
    let rules = (At(Code::E12, "agency_id", lacks_id), rules);
    let rules = (At(Code::E09, "agency_id", id), rules);
    let mut rules = (header, rules);
    judge_rows(tables, file, &mut rules, found)
}

fn report_stops<'a>(
    alloc: Global,
    tables: &'a Tables,
    ids: &Ids<'a>,
    types: &[Option<i64>],
    found: &mut Found<'a>,
) -> Result<(), OutOfMemory>
    requires ids { ids.now ≡ first_rows tables.now File.Stops (codes "stop_id") }
    requires types { AreStopTypes tables.now types.now }
    ensures { OnOk result (Reports tables.now (in_rows_of File.Stops) found.old found.new) }
{
    let file = File::Stops;
    let header = Header::new(alloc, tables, file, &stops_columns())?;
    let id = repeated(tables, file, "stop_id", ids);
    let parent = unknown(tables, file, "parent_station", ids);
    let kind = has_other_parent(tables, ids, types);
    let lacks_name = lacks_name_or_position(tables, "stop_name");
    let lacks_latitude = lacks_name_or_position(tables, "stop_lat");
    let lacks_longitude = lacks_name_or_position(tables, "stop_lon");
    let wrong_parent = has_wrong_parent(tables);
    let rules = (At(Code::E12, "parent_station", wrong_parent), ());
    let rules = (At(Code::E12, "stop_lon", lacks_longitude), rules);
    let rules = (At(Code::E12, "stop_lat", lacks_latitude), rules);
    let rules = (At(Code::E12, "stop_name", lacks_name), rules);
    let rules = (At(Code::E11, "parent_station", kind), rules);
    let rules = (At(Code::E10, "parent_station", parent), rules);
    let rules = (At(Code::E09, "stop_id", id), rules);
    let mut rules = (header, rules);
    judge_rows(tables, file, &mut rules, found)
}

fn report_routes<'a>(
    alloc: Global,
    tables: &'a Tables,
    ids: &NetworkIds<'a>,
    has_many: bool,
    found: &mut Found<'a>,
) -> Result<(), OutOfMemory>
    requires ids { AreNetworkIdsOf tables.now ids.now }
    requires many { has_many ≡ has_many_agencies tables.now }
    ensures { OnOk result (Reports tables.now (in_rows_of File.Routes) found.old found.new) }
{
    let file = File::Routes;
    let header = Header::new(alloc, tables, file, &routes_columns())?;
    let id = repeated(tables, file, "route_id", &ids.routes);
    let agency = unknown(tables, file, "agency_id", &ids.agencies);
    let lacks_name = lacks_name(tables);
    let lacks_agency = lacks_agency(tables, file, has_many);
    let rules = (At(Code::E12, "agency_id", lacks_agency), ());
    let rules = (At(Code::E12, "route_short_name", lacks_name), rules);
    let rules = (At(Code::E10, "agency_id", agency), rules);
    let rules = (At(Code::E09, "route_id", id), rules);
    let mut rules = (header, rules);
    judge_rows(tables, file, &mut rules, found)
}

// A service stands in calendar.txt, in calendar_dates.txt or in both.
fn report_trips<'a>(
    alloc: Global,
    tables: &'a Tables,
    ids: &FeedIds<'a>,
    found: &mut Found<'a>,
) -> Result<(), OutOfMemory>
    requires { AreIdsOf tables.now ids.now }
    ensures { OnOk result (Reports tables.now (in_rows_of File.Trips) found.old found.new) }
{
    let file = File::Trips;
    let header = Header::new(alloc, tables, file, &trips_columns())?;
    let id = repeated(tables, file, "trip_id", &ids.network.trips);
    let route = unknown(tables, file, "route_id", &ids.network.routes);
    let service = unknown_service(tables, ids);
    let rules = (At(Code::E10, "service_id", service), ());
    let rules = (At(Code::E10, "route_id", route), rules);
    let rules = (At(Code::E09, "trip_id", id), rules);
    let mut rules = (header, rules);
    judge_rows(tables, file, &mut rules, found)
}

fn report_calendar<'a>(
    alloc: Global,
    tables: &'a Tables,
    ids: &Ids<'a>,
    found: &mut Found<'a>,
) -> Result<(), OutOfMemory>
    requires { ids.now ≡ first_rows tables.now File.Calendar (codes "service_id") }
    ensures { OnOk result (Reports tables.now (in_rows_of File.Calendar) found.old found.new) }
{
    let file = File::Calendar;
    let header = Header::new(alloc, tables, file, &calendar_columns())?;
    let id = repeated(tables, file, "service_id", ids);
    let span = ends_before_start(tables);
    let rules = (At(Code::E14, "end_date", span), ());
    let rules = (At(Code::E09, "service_id", id), rules);
    let mut rules = (header, rules);
    judge_rows(tables, file, &mut rules, found)
}

fn report_calendar_dates<'a>(
    alloc: Global,
    tables: &'a Tables,
    found: &mut Found<'a>,
) -> Result<(), OutOfMemory>
    ensures { OnOk result (Reports tables.now (in_rows_of File.CalendarDates) found.old found.new) }
{
    let file = File::CalendarDates;
    let header = Header::new(alloc, tables, file, &calendar_dates_columns())?;
    let key = repeated_numbered(alloc, tables, file, "service_id", "date", Number::Date);
    let mut rules = (header, (key, ()));
    judge_rows(tables, file, &mut rules, found)
}

fn report_frequencies<'a>(
    alloc: Global,
    tables: &'a Tables,
    trips: &Ids<'a>,
    found: &mut Found<'a>,
) -> Result<(), OutOfMemory>
    requires { trips.now ≡ first_rows tables.now File.Trips (codes "trip_id") }
    ensures { OnOk result (Reports tables.now (in_rows_of File.Frequencies) found.old found.new) }
{
    let file = File::Frequencies;
    let header = Header::new(alloc, tables, file, &frequencies_columns())?;
    let key = repeated_numbered(alloc, tables, file, "trip_id", "start_time", Number::Time);
    let trip = unknown(tables, file, "trip_id", trips);
    let period = ends_at_start(tables);
    let rules = (At(Code::E18, "end_time", period), ());
    let rules = (At(Code::E10, "trip_id", trip), rules);
    let mut rules = (header, (key, rules));
    judge_rows(tables, file, &mut rules, found)
}

fn report_transfers<'a>(
    alloc: Global,
    tables: &'a Tables,
    ids: &NetworkIds<'a>,
    types: &[Option<i64>],
    found: &mut Found<'a>,
) -> Result<(), OutOfMemory>
    requires ids { AreNetworkIdsOf tables.now ids.now }
    requires types { AreStopTypes tables.now types.now }
    ensures { OnOk result (Reports tables.now (in_rows_of File.Transfers) found.old found.new) }
{
    let file = File::Transfers;
    let header = Header::new(alloc, tables, file, &transfers_columns())?;
    let key = repeated_transfer(alloc, tables);
    let from_stop = unknown(tables, file, "from_stop_id", &ids.stops);
    let to_stop = unknown(tables, file, "to_stop_id", &ids.stops);
    let from_route = unknown(tables, file, "from_route_id", &ids.routes);
    let to_route = unknown(tables, file, "to_route_id", &ids.routes);
    let from_trip = unknown(tables, file, "from_trip_id", &ids.trips);
    let to_trip = unknown(tables, file, "to_trip_id", &ids.trips);
    let from_kind = names_other(tables, "from_stop_id", &ids.stops, types);
    let to_kind = names_other(tables, "to_stop_id", &ids.stops, types);
    let lacks_from_stop = lacks_end(tables, 1, 3, "from_stop_id");
    let lacks_to_stop = lacks_end(tables, 1, 3, "to_stop_id");
    let lacks_from_trip = lacks_end(tables, 4, 5, "from_trip_id");
    let lacks_to_trip = lacks_end(tables, 4, 5, "to_trip_id");
    let rules = (At(Code::E12, "to_trip_id", lacks_to_trip), ());
    let rules = (At(Code::E12, "from_trip_id", lacks_from_trip), rules);
    let rules = (At(Code::E12, "to_stop_id", lacks_to_stop), rules);
    let rules = (At(Code::E12, "from_stop_id", lacks_from_stop), rules);
    let rules = (At(Code::E11, "to_stop_id", to_kind), rules);
    let rules = (At(Code::E11, "from_stop_id", from_kind), rules);
    let rules = (At(Code::E10, "to_trip_id", to_trip), rules);
    let rules = (At(Code::E10, "from_trip_id", from_trip), rules);
    let rules = (At(Code::E10, "to_route_id", to_route), rules);
    let rules = (At(Code::E10, "from_route_id", from_route), rules);
    let rules = (At(Code::E10, "to_stop_id", to_stop), rules);
    let rules = (At(Code::E10, "from_stop_id", from_stop), rules);
    let mut rules = (header, (key, rules));
    judge_rows(tables, file, &mut rules, found)
}
