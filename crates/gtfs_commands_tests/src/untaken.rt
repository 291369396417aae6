//! Words that ask for help or for the version, and words that are refused.

use crate::asserts::assert_equal_at;
use gtfs_commands::{WordsFault, read_words};
use std::alloc::Global;

// The words ask for help, whose text has this line; or what is not so.
fn helped(alloc: Global, words: &[&str], line: &str) -> Result<(), &'static str> {
    let Err(WordsFault::Help(text)) = read_words(alloc, words) else {
        return Err("no help");
    };
    if text.as_str().contains(line) {
        Ok(())
    } else {
        Err("the line is not there")
    }
}

// The words ask for the version, whose text is this; or what is not so.
fn versioned(alloc: Global, words: &[&str], wanted: &str) -> Result<(), &'static str> {
    let Err(WordsFault::Version(text)) = read_words(alloc, words) else {
        return Err("no version");
    };
    if text.as_str() == wanted {
        Ok(())
    } else {
        Err("another text")
    }
}

// The words are refused, and some text says why; or what is not so.
fn refused(alloc: Global, words: &[&str]) -> Result<(), &'static str> {
    let Err(WordsFault::Refused(text)) = read_words(alloc, words) else {
        return Err("not refused");
    };
    if text.as_str().is_empty() {
        Err("no text")
    } else {
        Ok(())
    }
}

const BOARD: &str =
    "gtfs board DIR --zone FILE --stop ID --from T --until T [--limit N] [--after KEY] [--interpolate]\n";

const BOARDS: &str = "gtfs boards DIR --zone FILE --requests FILE [--interpolate]\n";

const SERVE: &str = "gtfs serve DIR --zone FILE [--interpolate]\n";

const TIMETABLE: &str =
    "gtfs timetable DIR --route ID --date D [--direction 0|1] [--interpolate]\n";

const MERGE: &str = "gtfs merge A B OUT [--near N] [--cutoff D]\n";

#[test]
fn help_of_the_program_has_the_line_of_each_command(rt: HostRuntime) {
    for line in ["gtfs check DIR", BOARD, BOARDS, SERVE, TIMETABLE, MERGE] {
        let found = helped(rt.alloc(), &["gtfs", "--help"], line);
        assert_equal_at(&rt, line, found, Ok(()));
    }
}

// Words that ask for the help of a command, and an example in it.
const EXAMPLES: &[(&[&str], &str)] = &[
    (&["gtfs", "check", "--help"], "E10 trips.txt:7 route_id"),
    (
        &["gtfs", "board", "f1", "--help"],
        "@1711958400/T1/28800/3/20240401",
    ),
    (&["gtfs", "boards", "-h"], "== S1 20240401 20240402"),
    (
        &["gtfs", "boards", "f1", "--help"],
        "stop_id, from, until, limit, key\n",
    ),
    (
        &["gtfs", "boards", "--help"],
        "a pipe, as /dev/stdin may be one, cannot be read",
    ),
    (&["gtfs", "serve", "-h"], SERVE),
    (&["gtfs", "serve", "f1", "--help"], "until the input ends"),
    (&["gtfs", "timetable", "-h"], "20240401"),
    (&["gtfs", "merge", "--help"], "S1_merged_1"),
    (
        &["gtfs", "merge", "a", "-h"],
        "D is a service day YYYYMMDD, as 20240401.",
    ),
];

#[test]
fn help_of_a_command_has_examples_of_its_values(rt: HostRuntime) {
    for &(words, line) in EXAMPLES {
        let found = helped(rt.alloc(), words, line);
        assert_equal_at(&rt, words, found, Ok(()));
    }
}

// Words that ask for the version, before anything is wrong with them and before help.
const VERSIONS: &[&[&str]] = &[
    &["gtfs", "--version"],
    &["gtfs", "-V"],
    &["bin/gtfs", "--version"],
    &["gtfs", "-Vh"],
    &["gtfs", "-Vx"],
    &["gtfs", "--version", "--help"],
    &["gtfs", "--version", "check"],
    &["gtfs", "-V", "--speed=1"],
];

#[test]
fn the_version_is_told(rt: HostRuntime) {
    for &words in VERSIONS {
        let found = versioned(rt.alloc(), words, "gtfs 1.1.0\n");
        assert_equal_at(&rt, words, found, Ok(()));
    }
}

// Words that ask for help before they ask for the version.
const HELPS_FIRST: &[&[&str]] = &[
    &["gtfs", "-hV"],
    &["gtfs", "--help", "--version"],
    &["gtfs", "check", "--help", "--version"],
];

#[test]
fn help_that_is_asked_for_before_the_version_is_told(rt: HostRuntime) {
    for &words in HELPS_FIRST {
        let found = helped(rt.alloc(), words, "gtfs check DIR");
        assert_equal_at(&rt, words, found, Ok(()));
    }
}

// Words that are no command, or that name one and ask for the version, which the program alone has.
const REFUSED: &[&[&str]] = &[
    &["gtfs"],
    &["gtfs", "help"],
    &["gtfs", "check"],
    &["gtfs", "board", "f1", "--stop", "S1"],
    &["gtfs", "boards", "f1", "--zone=z1"],
    &["gtfs", "boards", "f1", "--requests=r1"],
    &["gtfs", "boards", "--zone=z1", "--requests=r1"],
    &["gtfs", "boards", "f1", "--zone=z1", "--requests"],
    &[
        "gtfs",
        "boards",
        "f1",
        "--zone=z1",
        "--requests=r1",
        "--requests=r1",
    ],
    &[
        "gtfs",
        "boards",
        "f1",
        "--zone=z1",
        "--requests=r1",
        "--limit=1",
    ],
    &[
        "gtfs",
        "boards",
        "f1",
        "--zone=z1",
        "--requests=r1",
        "--version",
    ],
    &["gtfs", "board", "f1", "--zone=z1", "--requests=r1"],
    &["gtfs", "serve", "f1"],
    &["gtfs", "serve", "--zone=z1"],
    &["gtfs", "serve", "f1", "--zone"],
    &["gtfs", "serve", "f1", "--zone=z1", "--zone=z1"],
    &["gtfs", "serve", "f1", "f2", "--zone=z1"],
    &["gtfs", "serve", "f1", "--zone=z1", "--requests=r1"],
    &["gtfs", "serve", "f1", "--zone=z1", "--interpolate=true"],
    &["gtfs", "serve", "f1", "--zone=z1", "--version"],
    &["gtfs", "timetable", "f1", "--route", "R1"],
    &["gtfs", "check", "f1", "--interpolate"],
    &[
        "gtfs",
        "timetable",
        "f1",
        "--route=R1",
        "--date=20240401",
        "--interpolate",
        "--interpolate",
    ],
    &[
        "gtfs",
        "timetable",
        "f1",
        "--route=R1",
        "--date=20240401",
        "--interpolate=true",
    ],
    &["gtfs", "merge", "north", "south"],
    &["gtfs", "merge", "north", "south", "both", "more"],
    &["gtfs", "merge", "north", "south", "both", "--near"],
    &[
        "gtfs", "merge", "north", "south", "both", "--near=1", "--near=1",
    ],
    &["gtfs", "merge", "north", "south", "--near", "both"],
    &["gtfs", "merge", "north", "south", "both", "--cutoff"],
    &[
        "gtfs",
        "merge",
        "north",
        "south",
        "both",
        "--cutoff=20240403",
        "--cutoff=20240403",
    ],
    &["gtfs", "merge", "north", "south", "--cutoff", "both"],
    &["gtfs", "check", "f1", "--cutoff=20240403"],
    &["gtfs", "check", "f1", "--near=1"],
    &["gtfs", "check", "f1", "--values", "--values"],
    &["gtfs", "check", "f1", "--summary", "--summary"],
    &["gtfs", "check", "f1", "--values=true"],
    &["gtfs", "check", "--summary"],
    &["gtfs", "check", "f1", "--advise", "--advise"],
    &["gtfs", "check", "f1", "--day"],
    &[
        "gtfs",
        "check",
        "f1",
        "--advise",
        "--day=20240401",
        "--day=20240401",
    ],
    &["gtfs", "board", "f1", "--advise"],
    &["gtfs", "merge", "north", "south", "both", "--interpolate"],
    &["gtfs", "check", "f1", "more", "--help"],
    &["gtfs", "version"],
    &["gtfs", "-v"],
    &["gtfs", "--version=1"],
    &["gtfs", "--", "--version"],
    &["gtfs", "--speed=1", "--version"],
    &["gtfs", "check", "--version"],
    &["gtfs", "check", "f1", "-V"],
    &["gtfs", "merge", "north", "south", "both", "--version"],
];

// So many words that no small number stands for want of memory.
const MANY: usize = 1_000;

#[test]
fn many_words_are_refused_as_words(rt: HostRuntime) {
    let mut words = ["more"; MANY];
    words[0] = "gtfs";
    words[1] = "check";
    assert_equal_at(&rt, MANY, refused(rt.alloc(), &words), Ok(()));
    words[1] = "more";
    assert_equal_at(&rt, MANY, refused(rt.alloc(), &words), Ok(()));
}

#[test]
fn help_is_told_of_many_words(rt: HostRuntime) {
    let mut words = ["--help"; MANY];
    words[0] = "gtfs";
    let found = helped(rt.alloc(), &words, "gtfs check DIR");
    assert_equal_at(&rt, MANY, found, Ok(()));
}

#[test]
fn words_are_refused(rt: HostRuntime) {
    for &words in REFUSED {
        assert_equal_at(&rt, words, refused(rt.alloc(), words), Ok(()));
    }
}
