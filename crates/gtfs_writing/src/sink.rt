ghost use Rattle.std.specs.Prelude.{◌≡◌, ◌∷◌, drop, OnOk, false};
ghost use Rattle.std.specs.Str.{IsAscii};
ghost use Rattle.csv.specs.Writing.{comma, default_writer, needs_quotes};
ghost use Rattle.gtfs_writing.specs.TakenRecords.{Taking, choice_fields, with_fields};

use crate::digits::one_digit;
use gtfs_field::OutOfMemory;
use gtfs_rows::{DropOffType, PickupType, Timepoint};

// What takes rows field by field.
pub(crate) trait Sink {
    ghost takes: { Taking Self };

    // The first field of a row.
    fn first(&mut self, field: &str) -> Result<(), OutOfMemory>
        ensures { OnOk result (self.new ≡ takes.first self.old field.now) };

    // The same of a field that needs no quotes.
    fn plain_first(&mut self, field: &str) -> Result<(), OutOfMemory>
        requires { needs_quotes default_writer field.now ≡ false }
        ensures { OnOk result (self.new ≡ takes.first self.old field.now) };

    // A further field of the row.
    fn next(&mut self, field: &str) -> Result<(), OutOfMemory>
        ensures { OnOk result (self.new ≡ takes.next self.old field.now) };

    // A further field that needs no quotes.
    fn plain(&mut self, field: &str) -> Result<(), OutOfMemory>
        requires { needs_quotes default_writer field.now ≡ false }
        ensures { OnOk result (self.new ≡ takes.next self.old field.now) };

    // The same in ASCII, with its comma before it, so that both are taken at once.
    fn plain_with_comma(&mut self, bytes: &[u8]) -> Result<(), OutOfMemory>
        requires ascii { IsAscii bytes.now }
        requires comma { bytes.now ≡ comma ∷ drop 1 bytes.now }
        requires plain { needs_quotes default_writer (drop 1 bytes.now) ≡ false }
        ensures { OnOk result (self.new ≡ takes.next self.old (drop 1 bytes.now)) };

    // The end of the row.
    fn last(&mut self) -> Result<(), OutOfMemory>
        ensures { OnOk result (self.new ≡ takes.last self.old) };

    // The last fields of a stop time that has no headsign, and the end of the row.
    fn choices(
        &mut self,
        pickup: PickupType,
        drop_off: DropOffType,
        timepoint: Option<Timepoint>,
    ) -> Result<(), OutOfMemory>
        ensures { OnOk result (self.new ≡ takes.last
            (with_fields takes self.old (choice_fields pickup drop_off timepoint))) }
    {
        self.plain_with_comma(b",")?;
        self.plain_with_comma(&one_digit(pickup.number()))?;
        self.plain_with_comma(&one_digit(drop_off.number()))?;
        match timepoint {
            Some(timepoint) => self.plain_with_comma(&one_digit(timepoint.number()))?,
            None => self.plain_with_comma(b",")?,
        }
        self.last()
    }
}
