ghost use Rattle.std.specs.Prelude.{◌≡◌, ◌<◌};
ghost use Rattle.gtfs_advice.specs.Codes.{advice_name, advice_rank, advice_text, file_of};

use gtfs_table::File;

/// What an advice says.
///
/// Codes are ordered by the file under which they stand, and within a file by their number. A code
/// that stands under two files, or under four, has a variant for each.
#[derive(Clone, Copy, Debug, PartialEq, Eq, PartialOrd, Ord)]
pub enum Code {
    /// No route is of this agency.
    AgencyWithoutRoute,
    /// The address of the agency begins neither with `http://` nor with `https://`.
    AddressWithoutScheme,
    /// The name of the agency has letters that were read in another encoding.
    GarbledAgency,
    /// No stop time names this stop or platform.
    StopWithoutTrip,
    /// No stop or platform has this station as its parent.
    StationWithoutStop,
    /// The stop lies near 0,0 or a pole.
    StopNearZeroOrPole,
    /// The stop lies some kilometre or more from its parent.
    StopFarFromParent,
    /// The name of the stop has letters that were read in another encoding.
    GarbledStop,
    /// No trip is of this route.
    RouteWithoutTrip,
    /// An earlier route of the same agency and type has the same names.
    RouteNamedAsAnother,
    /// The short name of the route has more than 12 characters.
    LongShortName,
    /// The long name of the route begins with its short name.
    RepeatedShortName,
    /// The text colour of the route is hard to read on its colour.
    CloseColours,
    /// The route has trips with a direction and trips without.
    DirectionOfSomeTrips,
    /// A name of the route has letters that were read in another encoding.
    GarbledRoute,
    /// Riders are not told where the trip goes.
    TripWithoutHeadsign,
    /// An earlier trip of the same route and service has the same stop times and frequencies.
    TripAsAnother,
    /// The headsign of the trip has letters that were read in another encoding.
    GarbledTrip,
    /// Two stop times of the trip that follow each other name one stop.
    StopTwiceInARow,
    /// The trip is at six stops in a row at one moment.
    SixStopsAtOneMoment,
    /// The trip goes faster than 500 km/h from one stop to the next.
    FasterThanATrain,
    /// At a stop of the trip riders may neither board nor leave.
    NobodyGetsOnOrOff,
    /// The trip takes longer than a day.
    LongerThanADay,
    /// No trip is of this service, which has a row in `calendar.txt`.
    ServiceWithoutTrip,
    /// Two weeks or more without any service begin on this day.
    GapInService,
    /// Fewer than seven days with service are left.
    EndOfService,
    /// No trip is of this service, which has rows in `calendar_dates.txt` alone.
    DatesWithoutTrip,
    /// A period of the trip's frequencies is no longer than its headway.
    PeriodOfOneRun,
}

impl Code {
    /// How many codes there are.
    pub const COUNT: usize = 28;

    /// The place of the code among all codes, in their order, from 0.
    pub fn rank(self) -> usize
        ensures rank { result ≡ advice_rank self }
        ensures within { result < 28 }
    {
        self as usize
    }

    /// The file under which the advice stands.
    pub fn file(self) -> File
        ensures { result ≡ file_of self }
    {
        match self {
            Code::AgencyWithoutRoute | Code::AddressWithoutScheme | Code::GarbledAgency => {
                File::Agency
            }
            Code::StopWithoutTrip
            | Code::StationWithoutStop
            | Code::StopNearZeroOrPole
            | Code::StopFarFromParent
            | Code::GarbledStop => File::Stops,
            Code::RouteWithoutTrip
            | Code::RouteNamedAsAnother
            | Code::LongShortName
            | Code::RepeatedShortName
            | Code::CloseColours
            | Code::DirectionOfSomeTrips
            | Code::GarbledRoute => File::Routes,
            Code::TripWithoutHeadsign | Code::TripAsAnother | Code::GarbledTrip => File::Trips,
            Code::StopTwiceInARow
            | Code::SixStopsAtOneMoment
            | Code::FasterThanATrain
            | Code::NobodyGetsOnOrOff
            | Code::LongerThanADay => File::StopTimes,
            Code::ServiceWithoutTrip | Code::GapInService | Code::EndOfService => File::Calendar,
            Code::DatesWithoutTrip => File::CalendarDates,
            Code::PeriodOfOneRun => File::Frequencies,
        }
    }

    /// The name that is printed, `A01` to `A24`. Codes that say the same of rows of several files
    /// share one.
    pub fn name(self) -> &'static str
        ensures { result.now ≡ advice_name self }
    {
        match self {
            Code::AgencyWithoutRoute => "A01",
            Code::AddressWithoutScheme => "A02",
            Code::StopWithoutTrip => "A03",
            Code::StationWithoutStop => "A04",
            Code::StopNearZeroOrPole => "A05",
            Code::StopFarFromParent => "A06",
            Code::RouteWithoutTrip => "A07",
            Code::RouteNamedAsAnother => "A08",
            Code::LongShortName => "A09",
            Code::RepeatedShortName => "A10",
            Code::CloseColours => "A11",
            Code::DirectionOfSomeTrips => "A12",
            Code::TripWithoutHeadsign => "A13",
            Code::TripAsAnother => "A14",
            Code::StopTwiceInARow => "A15",
            Code::SixStopsAtOneMoment => "A16",
            Code::FasterThanATrain => "A17",
            Code::NobodyGetsOnOrOff => "A18",
            Code::LongerThanADay => "A19",
            Code::PeriodOfOneRun => "A20",
            Code::ServiceWithoutTrip | Code::DatesWithoutTrip => "A21",
            Code::GapInService => "A22",
            Code::EndOfService => "A23",
            Code::GarbledAgency | Code::GarbledStop | Code::GarbledRoute | Code::GarbledTrip => {
                "A24"
            }
        }
    }

    /// What the advice says, in a few words.
    pub fn text(self) -> &'static str
        ensures { result.now ≡ advice_text self }
    {
        match self {
            Code::AgencyWithoutRoute => "no route",
            Code::AddressWithoutScheme => "address without http",
            Code::StopWithoutTrip => "no trip stops here",
            Code::StationWithoutStop => "no stop belongs to it",
            Code::StopNearZeroOrPole => "near 0,0 or a pole",
            Code::StopFarFromParent => "far from its parent",
            Code::RouteWithoutTrip | Code::ServiceWithoutTrip | Code::DatesWithoutTrip => "no trip",
            Code::RouteNamedAsAnother => "named as another one",
            Code::LongShortName => "short name over 12 characters",
            Code::RepeatedShortName => "long name repeats the short one",
            Code::CloseColours => "colours hard to tell apart",
            Code::DirectionOfSomeTrips => "direction of some trips only",
            Code::TripWithoutHeadsign => "no headsign",
            Code::TripAsAnother => "same as another one",
            Code::StopTwiceInARow => "stops twice in a row",
            Code::SixStopsAtOneMoment => "six stops at one moment",
            Code::FasterThanATrain => "faster than 500 km/h",
            Code::NobodyGetsOnOrOff => "nobody gets on or off",
            Code::LongerThanADay => "longer than a day",
            Code::PeriodOfOneRun => "one run alone",
            Code::GapInService => "no service for two weeks",
            Code::EndOfService => "fewer than seven days left",
            Code::GarbledAgency | Code::GarbledStop | Code::GarbledRoute | Code::GarbledTrip => {
                "garbled letters"
            }
        }
    }
}
