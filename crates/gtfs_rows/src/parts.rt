ghost use Rattle.std.specs.Prelude.{◌≡◌};

use crate::agency::Agency;
use crate::frequency::Frequency;
use crate::route::Route;
use crate::service::ServiceRow;
use crate::stop::Stop;
use crate::transfer::Transfer;
use crate::trip::Trip;
use gtfs_field::{List, Text};
use gtfs_stop_times::StopTimesByTrip;

/// All rows of a feed, each list in the order of its keys:
/// ids by their bytes, transfers by the six parts of their key.
///
/// The stop times of all trips are seen as one list, trip after trip and in each trip by sequence.
/// So are the frequencies, in each trip by start.
pub struct Parts {
    pub agencies: List<Agency>,
    pub stops: List<Stop>,
    pub routes: List<Route>,
    pub services: List<ServiceRow>,
    pub trips: List<Trip>,
    pub transfers: List<Transfer>,
    pub stop_times: StopTimesByTrip,
    pub frequencies: List<Frequency>,
    /// Where the frequencies of each trip begin.
    pub frequency_starts: List<usize>,
    /// The headsigns that stop times name by their numbers.
    pub headsigns: List<Text>,
}

// Written out, so that a function that lets parts go has one call to prove.
impl Drop for Parts {
    fn drop(self) {
        let Parts {
            agencies: _,
            stops: _,
            routes: _,
            services: _,
            trips: _,
            transfers: _,
            stop_times: _,
            frequencies: _,
            frequency_starts: _,
            headsigns: _,
        } = self;
    }
}

impl Parts {
    /// The stop times of all trips, for which all other rows are let go. It takes no memory.
    pub fn into_stop_times(self) -> StopTimesByTrip
        ensures { result ≡ self.stop_times }
    {
        let Parts {
            agencies: _,
            stops: _,
            routes: _,
            services: _,
            trips: _,
            transfers: _,
            stop_times,
            frequencies: _,
            frequency_starts: _,
            headsigns: _,
        } = self;
        stop_times
    }
}
