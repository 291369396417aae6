//! What the ids of two feeds became, on lines.

use gtfs_merge::{Kind, Names, Side};
use std::alloc::Global;
use std::test::Fail;

/// The kinds of ids, in the order of lines.
pub(crate) const KINDS: [(Kind, &str); 5] = [
    (Kind::Agency, "agency"),
    (Kind::Stop, "stop"),
    (Kind::Route, "route"),
    (Kind::Service, "service"),
    (Kind::Trip, "trip"),
];

const SIDES: [(Side, &str); 2] = [(Side::A, "A"), (Side::B, "B")];

/// A line for each id that became another, by kind, side and bytes: its side, its kind, the id and
/// the new one. Then a line for each kind that tells how many ids are joined.
pub(crate) fn report(alloc: Global, names: &Names) -> Result<String, Fail> {
    let mut text = String::new(alloc);
    for (kind, word) in KINDS {
        for (side, letter) in SIDES {
            let before = format!(in alloc; "{letter}\t{word}")?;
            push_renamed(alloc, names, (side, kind), before.as_str(), &mut text)?;
        }
    }
    for (kind, word) in KINDS {
        let count = names.joined(kind).len();
        text.push_str(&format!(in alloc; "joined {word} {count}\n")?)?;
    }
    Ok(text)
}

// Adds the lines of a side and a kind, which begin with these words.
fn push_renamed(
    alloc: Global,
    names: &Names,
    (side, kind): (Side, Kind),
    before: &str,
    text: &mut String,
) -> Result<(), Fail> {
    for id in names.ids(side, kind) {
        let new = names.of(side, kind, id.as_str()).unwrap_or("no name");
        if id.as_str() != new {
            let line = format!(in alloc; "{before}\t{}\t{new}\n", id.as_str())?;
            text.push_str(&line)?;
        }
    }
    Ok(())
}

/// A line for each near stop: its id and that of the stop of A.
pub(crate) fn pairs(alloc: Global, names: &Names) -> Result<String, Fail> {
    let mut text = String::new(alloc);
    for (own, other) in names.near() {
        let line = format!(in alloc; "{} {}\n", own.as_str(), other.as_str())?;
        text.push_str(&line)?;
    }
    Ok(text)
}
