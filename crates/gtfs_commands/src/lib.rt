//! What the words of the command line of `gtfs` ask for, read by `clap`.
//!
//! ```text
//! gtfs check DIR [--values] [--summary] [--advise] [--day D]
//! gtfs board DIR --zone FILE --stop ID --from T --until T [--limit N] [--after KEY] [--interpolate]
//! gtfs boards DIR --zone FILE --requests FILE [--interpolate]
//! gtfs serve DIR --zone FILE [--interpolate]
//! gtfs timetable DIR --route ID --date D [--direction 0|1] [--interpolate]
//! gtfs merge A B OUT [--near N] [--cutoff D]
//! ```
//!
//! [`read_words`] answers a [`Command`] with the texts that were given, each as it stands in the
//! words, or a [`WordsFault`]. It judges no text: whether a text is a date, an instant or a number
//! is for the command to say. `--help` asks for help of the program or of a command, and
//! `--version` for the version of the program.
//!
//! ```text
//! let Ok(Command::Check(texts)) = read_words(rt.alloc(), &["gtfs", "check", "f1"]) else {
//!     return Err("no check".into());
//! };
//! ```
#![tactic(auto)]

mod command;
mod definitions;
mod fault;
mod law;
mod read;

pub use command::{
    BoardTexts, BoardsTexts, CheckTexts, Command, MergeTexts, ServeTexts, TimetableTexts,
};
pub use fault::WordsFault;
pub use law::words_ask_for_one;
pub use read::read_words;
