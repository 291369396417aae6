ghost use Rattle.std.specs.Prelude.{◌≡◌, ◌++◌, ◌≤◌, ◌+◌, ◌-◌, ◌^◌, length, min, string_bytes, string_len, OnOk, OnErr};
ghost use Rattle.std.specs.String.{string_capacity};
ghost use Rattle.gtfs_merge.specs.MergeReport.{joined_line, kind_name, renamed_line};
ghost use Rattle.gtfs_cli.specs.MergeReport.{line_room, line_text, near_text, renamed_len};

use crate::report::line_pieces::push_piece;
use gtfs_field::OutOfMemory;
use gtfs_merge::{Kind, Side};
use gtfs_schema::push_plain;
use itoa::Buffer;

// How many bytes of the line of a renamed id are no name and no id: three tabs and the line feed.
const RENAMED_ROOM: usize = 4;

// How many bytes of the line of a count are not the kind's name, at most: the number has 20.
const JOINED_ROOM: usize = 29;

// How many bytes the line of near stops has, at most.
const NEAR_ROOM: usize = 31;

// A line of the report of a merge.
#[derive(Clone, Copy)]
pub(crate) enum MergeLine<'a> {
    // An id that changes: `SIDE KIND OLD NEW`, with tabs, and a line feed. Control characters of
    // the ids are spaces.
    Renamed {
        side: Side,
        kind: Kind,
        old: &'a str,
        new: &'a str,
    },
    // How many ids of a kind are joined: `joined KIND COUNT` and a line feed.
    Joined {
        kind: Kind,
        count: usize,
    },
    // How many stops are near: `near stop COUNT` and a line feed.
    Near {
        count: usize,
    },
}

impl MergeLine<'_> {
    // Appends the line to a text.
    // Errors: `OutOfMemory` where the text cannot grow; it is then as it was.
    pub(crate) fn push(self, text: &mut String) -> Result<(), OutOfMemory>
        ensures appended { OnOk result (string_bytes text.new
            ≡ string_bytes text.old ++ line_text self.entry) }
        ensures unchanged { OnErr result (string_bytes text.new ≡ string_bytes text.old) }
    {
        text.reserve(self.room())?;
        self.write(text);
        Ok(())
    }

    // How many bytes the line has, at most.
    fn room(self) -> usize
        ensures { result ≡ min (line_room self.entry) (2 ^ 64 - 1) }
    {
        match self {
            MergeLine::Renamed {
                side,
                kind,
                old,
                new,
            } => renamed_room(side, kind, old, new),
            MergeLine::Joined { kind, .. } => JOINED_ROOM.saturating_add(kind.name().len()),
            MergeLine::Near { .. } => NEAR_ROOM,
        }
    }

    // Appends the line, for which there is room.
    fn write(self, text: &mut String)
        requires { string_len text.old + line_room self ≤ string_capacity text.old }
        ensures { string_bytes text.new ≡ string_bytes text.old ++ line_text self.entry }
    {
        match self {
            MergeLine::Renamed {
                side,
                kind,
                old,
                new,
            } => write_renamed(text, side, kind, old, new),
            MergeLine::Joined { kind, count } => write_joined(text, kind, count),
            MergeLine::Near { count } => write_near(text, count),
        }
    }
}

// How many bytes the line of an id that changes has, at most.
fn renamed_room(side: Side, kind: Kind, old: &str, new: &str) -> usize
    ensures { result ≡ min (4 + renamed_len side kind old.now new.now) (2 ^ 64 - 1) }
{
    RENAMED_ROOM
        .saturating_add(side.name().len())
        .saturating_add(kind.name().len())
        .saturating_add(old.len())
        .saturating_add(new.len())
}

// Appends the line of an id that changes, for which there is room.
fn write_renamed(text: &mut String, side: Side, kind: Kind, old: &str, new: &str)
    requires { string_len text.old + (4 + renamed_len side kind old.now new.now)
        ≤ string_capacity text.old }
    ensures { string_bytes text.new
        ≡ string_bytes text.old ++ renamed_line side kind old.now new.now }
{
    push_piece(text, side.name(), "\t");
    push_piece(text, kind.name(), "\t");
    push_plain(text, old);
    push_piece(text, "", "\t");
    push_plain(text, new);
    push_piece(text, "", "\n");
}

// Appends the line of how many ids of a kind are joined, for which there is room.
fn write_joined(text: &mut String, kind: Kind, count: usize)
    requires { string_len text.old + (29 + length (kind_name kind)) ≤ string_capacity text.old }
    ensures { string_bytes text.new ≡ string_bytes text.old ++ joined_line kind count }
{
    push_piece(text, "joined ", kind.name());
    push_piece(text, " ", Buffer::new().format(count));
    push_piece(text, "", "\n");
}

// Appends the line of how many stops are near, for which there is room.
fn write_near(text: &mut String, count: usize)
    requires { string_len text.old + 31 ≤ string_capacity text.old }
    ensures { string_bytes text.new ≡ string_bytes text.old ++ near_text count }
{
    push_piece(text, "near stop ", Buffer::new().format(count));
    push_piece(text, "", "\n");
}
