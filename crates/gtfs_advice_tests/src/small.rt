//! The small feed.

use crate::cases::{Case, QUIET, assert_advice, assert_cases};
use gtfs_fixtures::feed_with;
use std::test::Fail;

// No trip stops at S3, and T1 has no headsign.
const SMALL: Case = Case {
    what: "the small feed",
    wanted: "A03 stops.txt S3\nA13 trips.txt T1\n",
    ..QUIET
};

#[test]
fn two_things_are_told_of_the_small_feed(rt: HostRuntime) -> Result<(), Fail> {
    let feed = feed_with(&rt, rt.alloc(), &[])?;
    assert_advice(&rt, rt.alloc(), &feed, &SMALL)
}

#[test]
fn nothing_is_told_of_a_quiet_feed(rt: HostRuntime) -> Result<(), Fail> {
    assert_cases(&rt, rt.alloc(), &[QUIET])
}
