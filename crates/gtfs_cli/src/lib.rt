//! The command line of the program `gtfs`, as a library.
//!
//! [`run_with_input`] reads the words of the command line and does what they ask for, over folders, an
//! input and outputs that its caller hands in, and answers the status with which the program is to
//! end. [`run`] is the same call with an input without lines.
//!
//! - 0: done;
//! - 1: the feed has errors, or no stop or route of that id, or two feeds cannot be merged;
//! - 2: the words are not as the usage wants them, the value of an option is bad, a board would end
//!   before it begins, or a line of a file of requests is bad;
//! - 3: a folder or a file is not there, cannot be read or is over the limit, a zone file is none, a
//!   file of requests is not UTF-8, a folder cannot be written, the input cannot be read, or the
//!   output failed;
//! - 4: memory ran out, and neither a folder nor the output failed.
//!
//! `gtfs check DIR [--values] [--summary]` prints what is wrong with the feed in a folder, a line for
//! each problem. With `--values` a line ends with the value that is wrong, in quotes and cut to 60
//! characters. With `--summary` there is a line for the first problem of each code, file and column,
//! which ends with how many of them there are.
//!
//! `gtfs board DIR --zone FILE --stop ID --from T --until T [--limit N] [--after KEY]
//! [--interpolate]` prints the departures at a stop, in the order of their keys, a line each: at
//! most N, and only those above the key. T is `@` and an instant in seconds since
//! 1970-01-01T00:00:00Z, or a service day YYYYMMDD, which stands for its origin in the zone: noon
//! less twelve hours. A feed with errors has no boards.
//!
//! `gtfs boards DIR --zone FILE --requests FILE [--interpolate]` prints a board for each line of the
//! file of requests, below a heading `== ID FROM UNTIL`. A line has three to five fields between
//! tabs: ID, FROM, UNTIL, and then perhaps N and KEY, with the values that `board` takes. All lines
//! are judged before anything is printed.
//!
//! `gtfs serve DIR --zone FILE [--interpolate]` reads the feed and the zone once, and then answers the
//! lines of its input, each before it asks for the next. A line is `board` and the fields of a line
//! of requests, or `timetable`, ROUTE, D and perhaps a direction, with tabs between them. An answer is
//! what `board` or `timetable` prints, or a line that begins with `!! `, and then an empty line.
//!
//! `gtfs timetable DIR --route ID --date D [--direction 0|1] [--interpolate]` prints the
//! runs of a route on a date, a sheet for each direction and list of stops. D is a date
//! YYYYMMDD, one without service included.
//!
//! With `--interpolate` a stop time with neither an arrival nor a departure has the time of an even
//! pace between its nearest neighbours that have one. A board lists its departures too, and marks
//! them by an `i`; a timetable prints its times.
//!
//! `gtfs merge A B OUT [--near N] [--cutoff D]` merges the feeds of two folders into a third, which
//! may be one of the two, and prints which ids changed and how many are joined. With `--near` a
//! stop of B becomes a stop of A that has its type, its name and its parent and whose coordinates
//! differ from its own by at most N millionths of a degree, and the last line says how many stops
//! do so. With `--cutoff` A serves the service days before D, and B those from D on.
//!
//! `gtfs --version` prints the name and the version of the program,
//! and `--help` how it or a command is called.
//!
//! Where a command cannot be done, one line on the error output says why.
//!
//! [`close`] then flushes the output. What a program has to say that cannot make this call, or whose
//! output is not flushed, is a [`Fault`], which [`tell`] sends to the error output.
//!
//! ```text
//! let mut disk = DiskFolders::new(rt);
//! let status = run(alloc, random, words, &mut disk, &mut out, err);
//! close(&mut out, status)
//! ```
#![tactic(auto)]

mod commands;
mod devices_seen;
mod fault;
mod law;
mod program_end;
mod report;

pub use commands::{run, run_with_input};
pub use fault::Fault;
pub use law::{conversations_are_one, outcomes_are_one, runs_end_with_outcomes};
pub use program_end::{close, tell};
