ghost use Rattle.std.specs.Prelude.{◌≡◌, length, Some, is_none};
ghost use Rattle.csv.specs.Writing.{default_writer, escaped, field_text};
ghost use Rattle.gtfs_writing.specs.TakenRecords.{into_room, room_after};

use crate::quoting::is_quoted;
use crate::sink::Sink;
use gtfs_field::OutOfMemory;
use std::marker::Model;

// Rows counted: how many bytes their text leaves of a room, and none once it has passed the room.
#[derive(Drop)]
pub(crate) struct RoomRows {
    room: Option<u64>,
}

impl Model for RoomRows {
    ghost use Rattle.std.specs.Prelude.{Option, ℕ};

    ghost Value = { Option ℕ };

    ghost view = { λ r. r.room };
}

impl RoomRows {
    pub(crate) fn new(room: u64) -> RoomRows
        ensures { result ≡ Some room }
    {
        RoomRows { room: Some(room) }
    }

    // Whether the text is longer than the room.
    pub(crate) fn is_passed(&self) -> bool
        ensures { result ≡ is_none self.now }
    {
        self.room.is_none()
    }

    // How much of the room is left, if it is not passed.
    pub(crate) fn left(&self) -> Option<u64>
        ensures { result ≡ self.now }
    {
        self.room
    }

    fn take_field(&mut self, field: &str)
        ensures { self.new ≡ room_after self.old (length (field_text default_writer field.now)) }
    {
        if is_quoted(field) {
            self.take(2);
            self.take_escaped(field.as_bytes());
        } else {
            self.take(field.len());
        }
    }

    // A quote stands twice.
    fn take_escaped(&mut self, field: &[u8])
        ensures { self.new ≡ room_after self.old (length (escaped default_writer field.now)) }
    {
        for byte in field {
            self.take(if *byte == b'"' { 2 } else { 1 });
        }
    }

    fn take(&mut self, bytes: usize)
        ensures { self.new ≡ room_after self.old bytes }
    {
        self.room = match self.room {
            Some(room) if bytes as u64 <= room => Some(room - bytes as u64),
            _ => None,
        };
    }
}

impl Sink for RoomRows {
    ghost takes = { into_room };

    fn first(&mut self, field: &str) -> Result<(), OutOfMemory> {
        self.take_field(field);
        Ok(())
    }

    fn next(&mut self, field: &str) -> Result<(), OutOfMemory> {
        self.take(1);
        self.take_field(field);
        Ok(())
    }

    fn plain_first(&mut self, field: &str) -> Result<(), OutOfMemory> {
        self.take(field.len());
        Ok(())
    }

    fn plain(&mut self, field: &str) -> Result<(), OutOfMemory> {
        self.take(1);
        self.take(field.len());
        Ok(())
    }

    fn plain_with_comma(&mut self, bytes: &[u8]) -> Result<(), OutOfMemory> {
        self.take(bytes.len());
        Ok(())
    }

    fn last(&mut self) -> Result<(), OutOfMemory> {
        self.take(1);
        Ok(())
    }
}
