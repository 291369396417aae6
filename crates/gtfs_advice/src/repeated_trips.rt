ghost use Rattle.std.specs.Prelude.{◌≡◌, ◌<◌, IfOk, length};
ghost use Rattle.std.specs.List.{All};
ghost use Rattle.gtfs_advice.specs.TripCourses.{AreRepeats, repeats_one};
ghost use Rattle.gtfs_advice.specs.NumberMarks.{AreMarks};

use crate::trip_courses::{Course, courses, in_order, is_repeat};
use gtfs_feed::Feed;
use gtfs_field::{OutOfMemory, Text};
use std::alloc::Global;

// Of each trip, by its number, whether it has a stop time and is like an earlier trip.
pub(crate) fn repeated_trips(alloc: Global, feed: &Feed) -> Result<Vec<bool>, OutOfMemory>
    ensures { IfOk result (λ marks. AreRepeats feed.now marks.items) }
{
    feed.soundness();
    let headsigns = feed.parts().headsigns.as_slice();
    let courses = in_order(courses(alloc, feed)?, headsigns)?;
    repeats(alloc, &courses, headsigns)
}

// Of each trip, by its number, whether it is a repeat of the one that stands before it.
fn repeats(
    alloc: Global,
    courses: &[Course<'_>],
    headsigns: &[Text],
) -> Result<Vec<bool>, OutOfMemory>
    requires { All (λ x. x.trip.0 < length courses.now) courses.now }
    ensures { IfOk result (λ marks. AreMarks (length courses.now)
        (repeats_one headsigns.now courses.now) marks.items) }
{
    let mut marks = vec![in alloc; false; courses.len()]?;
    for place in 1..courses.len() {
        let course = &courses[place];
        if is_repeat(headsigns, &courses[place - 1], course) {
            marks[course.trip.0] = true;
        }
    }
    Ok(marks)
}
