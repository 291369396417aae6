ghost use Rattle.std.specs.Prelude.{◌≡◌, ◌<◌, OnOk, Some, length, map, slice_get};
ghost use Rattle.gtfs_rows.specs.Rows.{Trip};
ghost use Rattle.gtfs_rows.specs.RowsInMemory.{content_of_parts, frequency_of};
ghost use Rattle.gtfs_advice.specs.Advice.{Tells, answers_of, frequency_advice, frequency_rules};
ghost use Rattle.gtfs_advice.specs.Trips.{has_period_of_one_run, has_single_run};

use crate::advice::{Advice, Subject, tell};
use crate::code::Code;
use gtfs_feed::Feed;
use gtfs_field::OutOfMemory;
use gtfs_rows::{Frequency, TripNo};

// Tells the advice on the frequencies of each trip.
pub(crate) fn tell_frequencies(feed: &Feed, told: &mut Vec<Advice>) -> Result<(), OutOfMemory>
    ensures { OnOk result (Tells feed.now (frequency_advice (content_of_parts feed.now))
        told.old.items told.new.items) }
{
    feed.soundness();
    for number in 0..feed.trip_count() {
        let trip = TripNo(number);
        let answers = answers(feed, trip);
        tell(told, &Subject::Trip(trip), &answers)?;
    }
    Ok(())
}

// Whether the rule holds of a trip.
fn answers(feed: &Feed, trip: TripNo) -> [(Code, bool); 1]
    requires { trip.0 < length feed.now.trips }
    ensures { (t : Trip) → slice_get (content_of_parts feed.now).trips trip.0 ≡ Some t
        → result ≡ answers_of frequency_rules t }
{
    feed.soundness();
    let periods = feed.trip_frequencies(trip);
    [(Code::PeriodOfOneRun, has_period_of_one_run(periods))]
}

// Whether a period of the trip is no longer than its headway.
fn has_period_of_one_run(periods: &[Frequency]) -> bool
    ensures { (t : Trip) → t.frequencies ≡ map frequency_of periods.now
        → result ≡ has_period_of_one_run t }
{
    periods.iter().any(|period| has_single_run(period))
}

fn has_single_run(period: &Frequency) -> bool
    ensures { result ≡ has_single_run (frequency_of period.now) }
{
    let length = period
        .end_time
        .seconds()
        .saturating_sub(period.start_time.seconds());
    length <= period.headway_secs
}
