//! The texts of keys, their order, and boards opened above keys that no departure has.

use crate::assertions::{assert_holds, assert_is};
use crate::cases::{FIRST_OF_APRIL, ONE_LINE};
use crate::opening::Fixture;
use gtfs_board::{Key, Times, push_key, read_key};
use gtfs_field::{Day, FieldFault};
use gtfs_fixtures::Clocks;
use std::alloc::Global;
use std::cmp::Ordering;
use std::process::Abort;
use std::test::Fail;

#[test]
fn a_key_is_cut_at_its_first_slash_and_its_last_three(rt: HostRuntime) {
    let wanted = Key {
        instant: 1_711_837_800,
        trip: "A/1/2",
        run: 1_800,
        seq: 5,
        // 2024-03-31
        day: Day::from_number(19_813),
    };
    match read_key("@1711837800/A/1/2/1800/5/20240331") {
        Ok(key) => assert_holds(&rt, key == wanted, key.trip),
        Err(fault) => panic!(rt; "{fault}"),
    }
}

// The text of the key that a text has, after this text.
fn rewritten(rt: &impl Abort, alloc: Global, before: &str, text: &str) -> Result<String, Fail> {
    let mut written = String::from_str(alloc, before)?;
    match read_key(text) {
        Ok(key) => push_key(alloc, &mut written, &key)?,
        Err(fault) => panic!(rt; "{text}: {fault}"),
    }
    Ok(written)
}

#[test]
fn texts_of_keys_read_back(rt: HostRuntime) -> Result<(), Fail> {
    for text in [
        "@1711837800/T1/1800/1/20240331",
        "@1711837800/A/1/2/1800/5/20240331",
        "@0//0/0/19000101",
        "@-1/ /1/1/19700101",
        "@-999999999999///3599999/2147483647/99991231",
        "@999999999999/\u{e9}@\t/3599998/10/20240229",
    ] {
        let written = rewritten(&rt, rt.alloc(), "> ", text)?;
        assert_is(&rt, written.as_str().strip_prefix("> "), Some(text), text);
    }
    Ok(())
}

// The widest instant, run and sequence, beyond those that a text can give back.
#[test]
fn a_key_that_does_not_read_back_is_written_as_it_is(rt: HostRuntime) -> Result<(), Fail> {
    let key = Key {
        instant: i64::MIN,
        trip: "",
        run: u32::MAX,
        seq: u32::MAX,
        // 1970-01-01
        day: Day::from_number(0),
    };
    let mut text = String::new(rt.alloc());
    push_key(rt.alloc(), &mut text, &key)?;
    let wanted = "@-9223372036854775808//4294967295/4294967295/19700101";
    assert_is(&rt, text.as_str(), wanted, "the key");
    Ok(())
}

// Why a text is no key, if it is none.
fn fault_of(text: &str) -> Option<FieldFault> {
    match read_key(text) {
        Ok(_) => None,
        Err(fault) => Some(fault),
    }
}

#[test]
fn other_texts_are_no_keys(rt: HostRuntime) {
    for (text, fault) in [
        ("", FieldFault::Form),
        ("@", FieldFault::Form),
        ("1711837800/T1/1800/1/20240331", FieldFault::Form),
        (" @1711837800/T1/1800/1/20240331", FieldFault::Form),
        ("@1711837800/1800/1/20240331", FieldFault::Form),
        ("@01711837800/T1/1800/5/20240331", FieldFault::Form),
        ("@-0/T1/0/1/20240331", FieldFault::Form),
        ("@+1/T1/0/1/20240331", FieldFault::Form),
        ("@/T1/0/1/20240331", FieldFault::Form),
        ("@1000000000000/T1/0/1/20240331", FieldFault::Range),
        ("@0/T1/3600000/1/20240331", FieldFault::Range),
        ("@0/T1/00/1/20240331", FieldFault::Form),
        ("@0/T1//1/20240331", FieldFault::Form),
        ("@0/T1/-1/1/20240331", FieldFault::Form),
        ("@0/T1/0/2147483648/20240331", FieldFault::Range),
        ("@0/T1/0/01/20240331", FieldFault::Form),
        ("@0/T1/0/1/20240230", FieldFault::Range),
        ("@0/T1/0/1/18991231", FieldFault::Range),
        ("@0/T1/0/1/2024033", FieldFault::Form),
        ("@0/T1/0/1/20240331 ", FieldFault::Form),
        // the first fault is told
        ("@x/T1/3600000/1/20240230", FieldFault::Form),
        ("@1000000000000/T1/x/1/20240331", FieldFault::Range),
        ("@0/T1/3600000/x/20240331", FieldFault::Range),
        ("@0/T1/x/2147483648/20240331", FieldFault::Form),
        ("@0/T1/0/2147483648/x", FieldFault::Range),
    ] {
        assert_is(&rt, fault_of(text), Some(fault), text);
    }
}

// In order: by instant, trip, run, sequence and day.
const ASCENDING: [&str; 12] = [
    "@-11/T2/9/9/20240401",
    "@-2/T2/9/9/20240401",
    "@9//9/9/20240401",
    "@9/T/9/9/20240401",
    "@9/T1/9/9/20240401",
    "@9/T10/2/9/20240401",
    "@9/T10/10/1/20240401",
    "@9/T2/10/2/20240401",
    "@9/T2/10/10/19000101",
    "@9/T2/10/10/20240401",
    "@9/t/0/0/19000101",
    "@10/A/0/0/19000101",
];

// How the key of a text stands to that of another, if both are keys.
fn order(text: &str, other: &str) -> Option<Ordering> {
    match (read_key(text), read_key(other)) {
        (Ok(key), Ok(other)) => Some(key.cmp(&other)),
        _ => None,
    }
}

#[test]
fn keys_stand_by_their_parts(rt: HostRuntime) {
    for (index, text) in ASCENDING.iter().enumerate() {
        for (other_index, other) in ASCENDING.iter().enumerate() {
            let wanted = Some(index.cmp(&other_index));
            let is_wanted = order(text, other) == wanted;
            assert_holds(&rt, is_wanted, format_args!("{text} {other}"));
        }
    }
}

// Keys that no text has around the one departure of the small dataset, which is
// @1711958400/T1/28800/1/20240401: the instant, trip, run and sequence of those below,
// and of those above.
const WIDE: [(i64, &str, u32, u32, &str); 8] = [
    (i64::MIN, "T1", 28_800, 1, ONE_LINE),
    (i64::MIN, "zz", u32::MAX, u32::MAX, ONE_LINE),
    (1_711_958_400, "T0", u32::MAX, u32::MAX, ONE_LINE),
    (1_711_958_400, "T1", 28_799, u32::MAX, ONE_LINE),
    (1_711_958_400, "T1", 28_800, u32::MAX, ""),
    (1_711_958_400, "T1", u32::MAX, 0, ""),
    (i64::MAX, "T1", 28_800, 1, ""),
    (i64::MAX, "", 0, 0, ""),
];

#[test]
fn a_board_is_opened_above_keys_that_no_text_has(rt: HostRuntime) -> Result<(), Fail> {
    let fixture = Fixture::of_files(&rt, rt.alloc(), &[], Clocks::Utc)?;
    let opening = fixture.opening("S1", FIRST_OF_APRIL, Times::Given);
    for (instant, trip, run, sequence, wanted) in WIDE {
        let key = Key {
            instant,
            trip,
            run,
            seq: sequence,
            // 2024-04-01
            day: Day::from_number(19_814),
        };
        let lines = opening.listed_above(&rt, rt.alloc(), Some(&key))?;
        let what = format_args!("{instant} {trip} {run} {sequence}");
        assert_is(&rt, lines.as_str(), wanted, what);
    }
    Ok(())
}
