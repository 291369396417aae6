ghost use Rattle.std.specs.Prelude.{◌≡◌, map};
ghost use Rattle.gtfs_schema.specs.Columns.{columns_of, means, nothing, refused};
ghost use Rattle.gtfs_schema.specs.steps.ColumnView.{column_of, kind_of};
ghost use Rattle.gtfs_table.specs.declared.file.File.TheVariants as file_name;

use gtfs_field::Axis;

/// The kind of a column (GTFS Schedule Reference, "Field Types").
#[derive(Clone, Copy)]
pub enum Kind {
    /// A text with no control character.
    Id,
    /// Any text.
    Text,
    /// A number from 0 to 2,147,483,647.
    Count,
    /// A count in one of these ranges, each given by its first and its last number.
    Choice(&'static [(u32, u32)]),
    /// H:MM:SS, in seconds of the service day.
    Time,
    /// YYYYMMDD, a day of the calendar.
    Date,
    /// Six hexadecimal digits.
    Colour,
    /// Degrees, in units of 10^-9.
    Coordinate(Axis),
}

/// What an empty value of a column is (GTFS Schedule Reference, "Presence").
#[derive(Clone, Copy)]
pub enum Empty {
    /// A problem: the column is required.
    Refused,
    /// No value.
    Nothing,
    /// What this text means.
    Means(&'static str),
}

/// A kept column of a file.
#[derive(Clone, Copy)]
pub struct Column {
    /// Its name in the header.
    pub name: &'static str,
    /// What its values are.
    pub kind: Kind,
    /// What an empty value is, as the reference's "Presence" says.
    pub empty: Empty,
}

// A count that is not 0.
const POSITIVE: Kind = Kind::Choice(&[(1, 2_147_483_647)]);

// The basic types of routes and the extended ones.
const ROUTE_TYPES: Kind = Kind::Choice(&[(0, 7), (11, 12), (100, 1799)]);

impl Column {
    // A column that the header must name and that each row must fill.
    fn required(name: &'static str, kind: Kind) -> Column
        ensures { column_of result
            ≡ record { name = name.now; kind = kind_of kind; empty = refused } }
    {
        Column {
            name,
            kind,
            empty: Empty::Refused,
        }
    }

    // A column whose empty value is none.
    fn optional(name: &'static str, kind: Kind) -> Column
        ensures { column_of result
            ≡ record { name = name.now; kind = kind_of kind; empty = nothing } }
    {
        Column {
            name,
            kind,
            empty: Empty::Nothing,
        }
    }

    // A column whose empty value means a text.
    fn defaulting(name: &'static str, kind: Kind, meaning: &'static str) -> Column
        ensures { column_of result
            ≡ record { name = name.now; kind = kind_of kind; empty = means meaning.now } }
    {
        Column {
            name,
            kind,
            empty: Empty::Means(meaning),
        }
    }
}

/// The kept columns of `agency.txt` (GTFS Schedule Reference),
/// in the order in which they are written.
pub fn agency_columns() -> [Column; 8]
    ensures { map column_of result ≡ columns_of file_name.Agency }
{
    [
        Column::optional("agency_id", Kind::Id),
        Column::required("agency_name", Kind::Text),
        Column::required("agency_url", Kind::Text),
        Column::required("agency_timezone", Kind::Id),
        Column::optional("agency_lang", Kind::Text),
        Column::optional("agency_phone", Kind::Text),
        Column::optional("agency_fare_url", Kind::Text),
        Column::optional("agency_email", Kind::Text),
    ]
}

/// The kept columns of `stops.txt` (GTFS Schedule Reference),
/// in the order in which they are written.
pub fn stops_columns() -> [Column; 12]
    ensures { map column_of result ≡ columns_of file_name.Stops }
{
    [
        Column::required("stop_id", Kind::Id),
        Column::optional("stop_code", Kind::Text),
        Column::optional("stop_name", Kind::Text),
        Column::optional("tts_stop_name", Kind::Text),
        Column::optional("stop_desc", Kind::Text),
        Column::optional("stop_lat", Kind::Coordinate(Axis::Latitude)),
        Column::optional("stop_lon", Kind::Coordinate(Axis::Longitude)),
        Column::optional("stop_url", Kind::Text),
        Column::defaulting("location_type", Kind::Choice(&[(0, 4)]), "0"),
        Column::optional("parent_station", Kind::Id),
        Column::defaulting("wheelchair_boarding", Kind::Choice(&[(0, 2)]), "0"),
        Column::optional("platform_code", Kind::Text),
    ]
}

/// The kept columns of `routes.txt` (GTFS Schedule Reference),
/// in the order in which they are written.
pub fn routes_columns() -> [Column; 10]
    ensures { map column_of result ≡ columns_of file_name.Routes }
{
    [
        Column::required("route_id", Kind::Id),
        Column::optional("agency_id", Kind::Id),
        Column::optional("route_short_name", Kind::Text),
        Column::optional("route_long_name", Kind::Text),
        Column::optional("route_desc", Kind::Text),
        Column::required("route_type", ROUTE_TYPES),
        Column::optional("route_url", Kind::Text),
        Column::defaulting("route_color", Kind::Colour, "FFFFFF"),
        Column::defaulting("route_text_color", Kind::Colour, "000000"),
        Column::optional("route_sort_order", Kind::Count),
    ]
}

/// The kept columns of `trips.txt` (GTFS Schedule Reference),
/// in the order in which they are written.
pub fn trips_columns() -> [Column; 8]
    ensures { map column_of result ≡ columns_of file_name.Trips }
{
    [
        Column::required("route_id", Kind::Id),
        Column::required("service_id", Kind::Id),
        Column::required("trip_id", Kind::Id),
        Column::optional("trip_headsign", Kind::Text),
        Column::optional("trip_short_name", Kind::Text),
        Column::optional("direction_id", Kind::Choice(&[(0, 1)])),
        Column::defaulting("wheelchair_accessible", Kind::Choice(&[(0, 2)]), "0"),
        Column::defaulting("bikes_allowed", Kind::Choice(&[(0, 2)]), "0"),
    ]
}

/// The kept columns of `stop_times.txt` (GTFS Schedule Reference),
/// in the order in which they are written.
pub fn stop_times_columns() -> [Column; 9]
    ensures { map column_of result ≡ columns_of file_name.StopTimes }
{
    [
        Column::required("trip_id", Kind::Id),
        Column::optional("arrival_time", Kind::Time),
        Column::optional("departure_time", Kind::Time),
        Column::required("stop_id", Kind::Id),
        Column::required("stop_sequence", Kind::Count),
        Column::optional("stop_headsign", Kind::Text),
        Column::defaulting("pickup_type", Kind::Choice(&[(0, 3)]), "0"),
        Column::defaulting("drop_off_type", Kind::Choice(&[(0, 3)]), "0"),
        Column::optional("timepoint", Kind::Choice(&[(0, 1)])),
    ]
}

/// The kept columns of `calendar.txt` (GTFS Schedule Reference),
/// in the order in which they are written.
pub fn calendar_columns() -> [Column; 10]
    ensures { map column_of result ≡ columns_of file_name.Calendar }
{
    [
        Column::required("service_id", Kind::Id),
        Column::required("monday", Kind::Choice(&[(0, 1)])),
        Column::required("tuesday", Kind::Choice(&[(0, 1)])),
        Column::required("wednesday", Kind::Choice(&[(0, 1)])),
        Column::required("thursday", Kind::Choice(&[(0, 1)])),
        Column::required("friday", Kind::Choice(&[(0, 1)])),
        Column::required("saturday", Kind::Choice(&[(0, 1)])),
        Column::required("sunday", Kind::Choice(&[(0, 1)])),
        Column::required("start_date", Kind::Date),
        Column::required("end_date", Kind::Date),
    ]
}

/// The kept columns of `calendar_dates.txt` (GTFS Schedule Reference),
/// in the order in which they are written.
pub fn calendar_dates_columns() -> [Column; 3]
    ensures { map column_of result ≡ columns_of file_name.CalendarDates }
{
    [
        Column::required("service_id", Kind::Id),
        Column::required("date", Kind::Date),
        Column::required("exception_type", Kind::Choice(&[(1, 2)])),
    ]
}

/// The kept columns of `frequencies.txt` (GTFS Schedule Reference),
/// in the order in which they are written.
pub fn frequencies_columns() -> [Column; 5]
    ensures { map column_of result ≡ columns_of file_name.Frequencies }
{
    [
        Column::required("trip_id", Kind::Id),
        Column::required("start_time", Kind::Time),
        Column::required("end_time", Kind::Time),
        Column::required("headway_secs", POSITIVE),
        Column::defaulting("exact_times", Kind::Choice(&[(0, 1)]), "0"),
    ]
}

/// The kept columns of `transfers.txt` (GTFS Schedule Reference),
/// in the order in which they are written.
pub fn transfers_columns() -> [Column; 8]
    ensures { map column_of result ≡ columns_of file_name.Transfers }
{
    [
        Column::optional("from_stop_id", Kind::Id),
        Column::optional("to_stop_id", Kind::Id),
        Column::optional("from_route_id", Kind::Id),
        Column::optional("to_route_id", Kind::Id),
        Column::optional("from_trip_id", Kind::Id),
        Column::optional("to_trip_id", Kind::Id),
        Column::defaulting("transfer_type", Kind::Choice(&[(0, 5)]), "0"),
        Column::optional("min_transfer_time", Kind::Count),
    ]
}
