ghost use Rattle.std.specs.Prelude.{◌≡◌, ◌&&◌, ◌∷◌, [], not, is_some, option_and_then, option_map, OnOk};
ghost use Rattle.gtfs_table.specs.Tables.{Dataset};
ghost use Rattle.gtfs_schema.specs.steps.FeedIds.{AreIdsOf};
ghost use Rattle.gtfs_schema.specs.steps.Ids.{first_row_with, number_with};
ghost use Rattle.gtfs_trip_rules.specs.StopTimeFields.{text_of, value_in};
ghost use Rattle.gtfs_schema.specs.steps.StopTypes.{type_of, AreStopTypes};
ghost use Rattle.gtfs_trip_rules.specs.StopTimePicks.{in_names};
ghost use Rattle.gtfs_trip_rules.specs.StopTimes.{AreNamedRows, IsNamedId, IsRow, ReportsOfRow};
ghost use Rattle.gtfs_schema.specs.FieldValues.{has_control, if_there, is_one_of};

use crate::stop_times::columns::ReadStopTime;
use crate::stop_times::problem;
use crate::stop_times::reading::Reading;
use gtfs_field::OutOfMemory;
use gtfs_schema::{Code, FeedIds, Finder, Found, FoundId, Ids, has_control, is_one_of, type_of};

// The rows that stop times name: their trips, and their stops with the types of these.
#[derive(Drop)]
pub(crate) struct NamedRows<'a, 't> {
    stops: Finder<'a>,
    trips: Finder<'a>,
    types: &'t [Option<i64>],
}

impl<'a, 't> NamedRows<'a, 't> {
    pub(crate) fn new(ids: &'a FeedIds<'a>, types: &'t [Option<i64>]) -> NamedRows<'a, 't>
        ensures { (d : Dataset) → AreIdsOf d ids.now → AreStopTypes d types.now
            → AreNamedRows d result }
    {
        NamedRows {
            stops: Finder::new(&ids.network.stops),
            trips: Finder::new(&ids.network.trips),
            types,
        }
    }

    // Reads the ids of the trip and of the stop that a row names, and finds them.
    #[inline(always)]
    pub(crate) fn find<'b>(&mut self, trip_id: &'b str, stop_id: &'b str) -> NamedIds<'b>
        ensures trip { IsNamedId self.old.trips.ids.now trip_id.now result.trip }
        ensures stop { IsNamedId self.old.stops.ids.now stop_id.now result.stop }
        ensures same { (d : Dataset) → AreNamedRows d self.old → AreNamedRows d self.new }
    {
        NamedIds {
            trip: read_named(&mut self.trips, trip_id),
            stop: read_named(&mut self.stops, stop_id),
        }
    }

    // Reports a stop and a trip that are not there, and a stop at which no vehicle stops: a
    // station, an entrance, a node or a boarding area.
    pub(crate) fn report<'b>(
        &self,
        stop_time: &ReadStopTime<'b>,
        ids: &NamedIds<'b>,
        found: &mut Found<'b>,
    ) -> Result<(), OutOfMemory>
        requires trip { ids.now.trip.row ≡ option_and_then
            (first_row_with self.now.trips.ids.now) (text_of (value_in stop_time.now.trip_id)) }
        requires stop { ids.now.stop.row ≡ option_and_then
            (first_row_with self.now.stops.ids.now) (text_of (value_in stop_time.now.stop_id)) }
        ensures { OnOk result ((d : Dataset) → AreNamedRows d self.now
            → IsRow d stop_time.now
            → ReportsOfRow d in_names stop_time.now.row found.old found.new) }
    {
        let row = stop_time.row;
        let stop = ids.stop.row;
        let no_stop = problem(row, Code::E10, "stop_id");
        found.report_if(no_stop, is_lost(stop_time.stop_id.value(), stop))?;
        let no_trip = problem(row, Code::E10, "trip_id");
        found.report_if(no_trip, is_lost(stop_time.trip_id.value(), ids.trip.row))?;
        let no_platform = problem(row, Code::E11, "stop_id");
        found.report_if(no_platform, is_no_platform(self.types, stop))
    }
}

// The ids of the trip and of the stop that a row names.
#[derive(Clone, Copy)]
pub(crate) struct NamedIds<'a> {
    pub(crate) trip: NamedId<'a>,
    pub(crate) stop: NamedId<'a>,
}

// An id as it was read, and where it stands: its number, and the first row that has it.
#[derive(Clone, Copy)]
pub(crate) struct NamedId<'a> {
    pub(crate) reading: Reading<&'a str>,
    pub(crate) number: Option<usize>,
    pub(crate) row: Option<usize>,
}

// Reads an id, and finds it among these.
#[inline(always)]
fn read_named<'b>(ids: &mut Finder<'_>, text: &'b str) -> NamedId<'b>
    ensures named { IsNamedId ids.old.ids.now text.now result }
    ensures same { ids.new.ids.now ≡ ids.old.ids.now }
{
    if text.is_empty() {
        return nowhere(Reading::Empty);
    }
    let found = ids.find(text);
    if holds_control(ids.ids, found, text) {
        return nowhere(Reading::Fault(Code::E20));
    }
    NamedId {
        reading: Reading::Value(text),
        number: found.map(|found| found.number),
        row: found.map(|found| found.row),
    }
}

// What is not an id stands nowhere.
#[inline(always)]
fn nowhere<'a>(reading: Reading<&'a str>) -> NamedId<'a>
    ensures { result ≡ record { reading = reading.entry; number = None; row = None } }
{
    NamedId {
        reading,
        number: None,
        row: None,
    }
}

// Whether a text holds a control character, for which this was found among the ids. Where no id
// holds one, a text that is found needs no look at it.
#[inline(always)]
fn holds_control(ids: &Ids<'_>, found: Option<FoundId>, text: &str) -> bool
    requires { option_map (λ f. f.number) found ≡ number_with ids.now text.now }
    ensures { result ≡ has_control text.now }
{
    match found {
        Some(_) if ids.are_clear() => false,
        _ => has_control(text),
    }
}

// Whether there is an id, and no row with it.
fn is_lost(id: Option<&str>, row: Option<usize>) -> bool
    ensures { result ≡ (is_some id.entry && not (is_some row)) }
{
    id.is_some() && row.is_none()
}

// Whether the stop is of another type than that of stops and platforms.
#[inline(always)]
fn is_no_platform(types: &[Option<i64>], stop: Option<usize>) -> bool
    ensures { result
        ≡ if_there (option_and_then (type_of types.now) stop) (λ t. not (is_one_of (0 ∷ []) t)) }
{
    match stop {
        Some(stop) => type_of(types, stop).is_some_and(|t| !is_one_of(&[0], t)),
        None => false,
    }
}
