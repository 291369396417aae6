//! Folders of a file system that stands in for the real one: what it refuses, lists and gives is up
//! to the test. Of each call on such folders it is held what it answers, whether it counts as a
//! failure, and which calls it makes on the system, in their order, by a digit for each: 1 opens
//! the folder, 0 lists names, 2 finds what a path leads to, 3 looks at the entry itself, 4 opens the
//! file, 5 asks for its length, 6 reads, 7 makes the file, 8 writes, and 9 makes the folder.
use super::stand_in::{Calls, Scene, StandIn};
use crate::assertions::{assert_is, assert_is_at};
use crate::device::{
    ABSENT, Answer, Asked, NAMES, NO_FOLDER, NO_MEMORY, READS, TOO_LARGE, UNREADABLE, UNWRITABLE,
    WHOLE, WRITES, ask, failures_at, listed,
};
use gtfs_table::{DiskFolders, FolderFault, Folders};
use std::io::ErrorKind;
use std::process::Abort;

impl Scene {
    // What is to be found of it.
    fn bytes(&self, asked: Asked) -> &[u8] {
        match (asked, self.file) {
            (Asked::Names, _) => self.names,
            (_, Some(bytes)) => bytes,
            (_, None) => b"",
        }
    }
}

// What is answered, how many calls failed, and the digits of the calls on the system.
fn asked_of(rt: HostRuntime, scene: Scene, asked: Asked, calls: &Calls) -> (Answer, u64, u64) {
    let system = StandIn { rt, scene, calls };
    let mut disk = DiskFolders::with_limits(&system, scene.limit, 1_000_000);
    let bytes = scene.bytes(asked);
    let answer = ask(
        rt.alloc(),
        &mut disk,
        asked,
        (scene.dir, "stops.txt"),
        bytes,
    );
    (answer, disk.failures(), calls.digits())
}

// The folder f1 with a file of five bytes.
const FILE: Scene = Scene {
    dir: "f1",
    limit: 100,
    names: b"stops.txt\0",
    times: 1,
    file: Some(b"stops"),
    is_file: true,
    told: Some(5),
    takes: usize::MAX,
};

const NO_FILE: Scene = Scene { file: None, ..FILE };

// What is neither a file nor a folder nor a device, as a named pipe.
const PIPE: Scene = Scene {
    is_file: false,
    ..FILE
};

const DENIED: ErrorKind = ErrorKind::PermissionDenied;

const FULL: ErrorKind = ErrorKind::StorageFull;

const LATE: ErrorKind = ErrorKind::TimedOut;

const NOT_FOUND: ErrorKind = ErrorKind::NotFound;

const SHORT: ErrorKind = ErrorKind::OutOfMemory;

// A file as long as the limit, which is told to be longer.
const LONGER_TOLD: Scene = Scene {
    limit: 2,
    file: Some(b"st"),
    told: Some(100),
    ..FILE
};

// What is answered, and the digits of the calls that are made.
type Made = (Answer, u64);

// Calls on a scene, for which reasons the system refuses a call, and what comes of it where it
// refuses each call in turn, the first one first, and at last none.
type Refusals = (
    Scene,
    &'static [Asked],
    &'static [ErrorKind],
    &'static [Made],
);

// Nothing is told as absent or as too large, since what can be looked at is there. A file is made
// where none is found, a file that tells no length is read, and memory is wanted of listings alone.
// After a fault the system is asked for nothing but whether there is an entry at all.
const REFUSALS: &[Refusals] = &[
    (
        FILE,
        NAMES,
        &[DENIED, FULL, LATE, NOT_FOUND],
        &[
            (UNREADABLE, 13),
            (UNREADABLE, 10),
            (UNREADABLE, 100),
            (WHOLE, 100),
        ],
    ),
    (
        FILE,
        NAMES,
        &[SHORT],
        &[
            (NO_MEMORY, 13),
            (NO_MEMORY, 10),
            (NO_MEMORY, 100),
            (WHOLE, 100),
        ],
    ),
    (
        FILE,
        READS,
        &[DENIED, FULL, LATE, NOT_FOUND, SHORT],
        &[
            (UNREADABLE, 23),
            (UNREADABLE, 24),
            (WHOLE, 245_666_666),
            (UNREADABLE, 2_456),
            (UNREADABLE, 24_566),
            (UNREADABLE, 245_666),
            (UNREADABLE, 2_456_666),
            (UNREADABLE, 24_566_666),
            (UNREADABLE, 245_666_666),
            (WHOLE, 245_666_666),
        ],
    ),
    // A read that is interrupted is made again.
    (
        FILE,
        READS,
        &[ErrorKind::Interrupted],
        &[
            (UNREADABLE, 23),
            (UNREADABLE, 24),
            (WHOLE, 245_666_666),
            (WHOLE, 2_456_666_666),
            (WHOLE, 2_456_666_666),
            (WHOLE, 2_456_666_666),
            (WHOLE, 2_456_666_666),
            (WHOLE, 2_456_666_666),
            (WHOLE, 2_456_666_666),
            (WHOLE, 245_666_666),
        ],
    ),
    // A file that is told to be over the limit is gone through, and then read from its beginning.
    (
        LONGER_TOLD,
        READS,
        &[DENIED, FULL, LATE, NOT_FOUND, SHORT],
        &[
            (UNREADABLE, 23),
            (UNREADABLE, 24),
            (WHOLE, 245_666),
            (UNREADABLE, 2_456),
            (UNREADABLE, 24_566),
            (UNREADABLE, 245_666),
            (UNREADABLE, 24_566_623),
            (UNREADABLE, 24_566_624),
            (UNREADABLE, 245_666_246),
            (UNREADABLE, 2_456_662_466),
            (UNREADABLE, 24_566_624_666),
            (WHOLE, 24_566_624_666),
        ],
    ),
    (
        NO_FILE,
        READS,
        &[DENIED, FULL, LATE, SHORT],
        &[
            (UNREADABLE, 23),
            (UNREADABLE, 23),
            (UNREADABLE, 2_323),
            (ABSENT, 2_323),
            (ABSENT, 2_323),
        ],
    ),
    (
        NO_FILE,
        READS,
        &[NOT_FOUND],
        &[
            (ABSENT, 2_323),
            (ABSENT, 2_323),
            (UNREADABLE, 2_323),
            (ABSENT, 2_323),
            (ABSENT, 2_323),
        ],
    ),
    (
        FILE,
        WRITES,
        &[DENIED, FULL, LATE, SHORT],
        &[
            (WHOLE, 92_278),
            (UNWRITABLE, 92),
            (UNWRITABLE, 922),
            (UNWRITABLE, 9_227),
            (UNWRITABLE, 92_278),
            (WHOLE, 92_278),
        ],
    ),
    (
        FILE,
        WRITES,
        &[NOT_FOUND],
        &[
            (WHOLE, 92_278),
            (UNWRITABLE, 92),
            (WHOLE, 92_278),
            (UNWRITABLE, 9_227),
            (UNWRITABLE, 92_278),
            (WHOLE, 92_278),
        ],
    ),
];

fn assert_answers(
    rt: &impl Abort,
    system: HostRuntime,
    asked: Asked,
    reason: ErrorKind,
    refusals: &Refusals,
) {
    let (scene, _, _, answers) = refusals;
    for (before, &(answer, digits)) in answers.iter().enumerate() {
        let call = (before as u64).saturating_add(1);
        let calls = Calls::new(call, call.saturating_add(1), reason);
        let found = asked_of(system, *scene, asked, &calls);
        let wanted = (answer, failures_at(answer), digits);
        assert_is_at(rt, found, wanted, "refused", (asked, reason, call));
    }
}

fn assert_reasons(rt: &impl Abort, system: HostRuntime, asked: Asked, refusals: &Refusals) {
    for &reason in refusals.2 {
        assert_answers(rt, system, asked, reason, refusals);
    }
}

fn assert_refusals(rt: &impl Abort, system: HostRuntime, refusals: &Refusals) {
    for &asked in refusals.1 {
        assert_reasons(rt, system, asked, refusals);
    }
}

#[test]
fn each_call_is_refused_once(rt: HostRuntime) {
    for refusals in REFUSALS {
        assert_refusals(&rt, rt, refusals);
    }
}

// Calls on a scene, and what comes of them where the system refuses nothing.
const SCENES: &[(&str, Scene, &[Asked], Made)] = &[
    ("names of a pipe", PIPE, NAMES, (WHOLE, 100)),
    ("a pipe is never opened", PIPE, READS, (UNREADABLE, 2)),
    ("a pipe is never made", PIPE, WRITES, (UNWRITABLE, 922)),
    (
        "no folder",
        Scene { dir: "f2", ..FILE },
        NAMES,
        (NO_FOLDER, 13),
    ),
    (
        "no folder/",
        Scene { dir: "f2/", ..FILE },
        NAMES,
        (NO_FOLDER, 13),
    ),
    (
        "no f1/f2",
        Scene {
            dir: "f1/f2",
            ..FILE
        },
        NAMES,
        (NO_FOLDER, 13),
    ),
    (
        "no folder",
        Scene { dir: "f2", ..FILE },
        READS,
        (NO_FOLDER, 2_323),
    ),
    (
        "no folder/",
        Scene { dir: "f2/", ..FILE },
        READS,
        (NO_FOLDER, 2_323),
    ),
    (
        "no f1/f2",
        Scene {
            dir: "f1/f2",
            ..FILE
        },
        READS,
        (NO_FOLDER, 2_323),
    ),
    // Without a path nothing is asked.
    ("no path", Scene { dir: "", ..FILE }, READS, (NO_FOLDER, 0)),
    // The file tells no length, none yet, that of its beginning, more than it has, and much more.
    (
        "no length",
        Scene {
            told: None,
            limit: 5,
            ..FILE
        },
        READS,
        (WHOLE, 245_666_666),
    ),
    (
        "length 0",
        Scene {
            told: Some(0),
            limit: 5,
            ..FILE
        },
        READS,
        (WHOLE, 245_666_666),
    ),
    (
        "length 3",
        Scene {
            told: Some(3),
            limit: 5,
            ..FILE
        },
        READS,
        (WHOLE, 245_666_666),
    ),
    (
        "length 100",
        Scene {
            told: Some(100),
            limit: 5,
            ..FILE
        },
        READS,
        (WHOLE, 24_566_666_624_666_666),
    ),
    (
        "length 200,000,000",
        Scene {
            told: Some(200_000_000),
            limit: 1_073_741_824,
            ..FILE
        },
        READS,
        (WHOLE, 245_666_666),
    ),
    (
        "an empty file",
        Scene {
            file: Some(b""),
            told: Some(0),
            limit: 0,
            ..FILE
        },
        READS,
        (WHOLE, 2_456),
    ),
    // One byte more than the limit is taken.
    (
        "a byte more",
        Scene { limit: 4, ..FILE },
        READS,
        (TOO_LARGE, 24_566_666),
    ),
    (
        "more than a byte",
        Scene {
            file: Some(b"stop_times"),
            limit: 4,
            ..FILE
        },
        READS,
        (TOO_LARGE, 24_566_666),
    ),
    // So it is where the length is told, and a reader that has no memory is asked for none.
    (
        "a byte more, as told",
        Scene {
            told: Some(5),
            limit: 4,
            ..FILE
        },
        &[Asked::Read, Asked::Lend, Asked::LendUntil(1)],
        (TOO_LARGE, 24_566_666),
    ),
    // The reader refuses to make room, the first byte, or the last one.
    ("no room", FILE, &[Asked::LendUntil(1)], (NO_MEMORY, 245)),
    (
        "no first byte",
        FILE,
        &[Asked::LendUntil(2)],
        (NO_MEMORY, 2_456),
    ),
    (
        "no last byte",
        FILE,
        &[Asked::LendUntil(6)],
        (NO_MEMORY, 24_566_666),
    ),
    // A file is made once, and written until it takes nothing.
    (
        "takes all",
        Scene { takes: 5, ..FILE },
        WRITES,
        (WHOLE, 92_278),
    ),
    (
        "takes two bytes",
        Scene { takes: 2, ..FILE },
        WRITES,
        (WHOLE, 9_227_888),
    ),
    (
        "takes nothing",
        Scene { takes: 0, ..FILE },
        WRITES,
        (UNWRITABLE, 92_278),
    ),
    (
        "no text",
        Scene {
            names: b"a\xff.txt\0",
            ..FILE
        },
        NAMES,
        (UNREADABLE, 10),
    ),
];

fn assert_scene(
    rt: &impl Abort,
    system: HostRuntime,
    what: &str,
    scene: Scene,
    asked: &[Asked],
    (answer, digits): Made,
) {
    for &asked in asked {
        let calls = Calls::new(0, 0, LATE);
        let found = asked_of(system, scene, asked, &calls);
        let wanted = (answer, failures_at(answer), digits);
        assert_is_at(rt, found, wanted, what, asked);
    }
}

#[test]
fn systems_are_asked_until_they_answer(rt: HostRuntime) {
    for &(what, scene, asked, made) in SCENES {
        assert_scene(&rt, rt, what, scene, asked, made);
    }
}

// A file whose reads are interrupted each time is given up after two reads more than the limit.
#[test]
fn a_file_that_never_ends_is_given_up(rt: HostRuntime) {
    for &asked in READS {
        let calls = Calls::new(4, u64::MAX, ErrorKind::Interrupted);
        let scene = Scene { limit: 7, ..FILE };
        let found = asked_of(rt, scene, asked, &calls);
        let wanted = (UNREADABLE, 1, 245_666_666_666);
        assert_is_at(&rt, found, wanted, "asked", asked);
    }
}

// How many names a folder has that repeats one so many times, and how many calls failed.
fn names_of(rt: HostRuntime, times: usize) -> (Result<usize, FolderFault>, u64) {
    let calls = Calls::new(0, 0, LATE);
    let scene = Scene {
        names: b"a\0",
        times,
        ..FILE
    };
    let system = StandIn {
        rt,
        scene,
        calls: &calls,
    };
    let mut disk = DiskFolders::new(&system);
    let names = listed(rt.alloc(), &mut disk, "f1");
    (names, disk.failures())
}

#[test]
fn a_million_entries_are_listed_and_no_more(rt: HostRuntime) {
    let million = names_of(rt, 1_000_000);
    assert_is(&rt, million, (Ok(1_000_000), 0), "a million");
    let more = names_of(rt, 1_000_001);
    assert_is(&rt, more, (Err(FolderFault::Read), 1), "one more");
}
