ghost use Rattle.std.specs.Prelude.{◌≡◌, ℕ, List, if◌then◌else◌, drop, option_map, OnOk, true, false, [], Some, None, ◌∷◌};
ghost use Rattle.std.specs.Str.{IsAscii};
ghost use Rattle.csv.specs.Writing.{comma, default_writer, needs_quotes};
ghost use Rattle.gtfs_field.specs.Canonical.{colour_text, coordinate_text, count_text, date_text, time_text};
ghost use Rattle.gtfs_field.specs.declared.coord.Axis.{Axis};
ghost use Rattle.gtfs_schema.specs.Columns.{Kind, choice, coordinate, count, time};
ghost use Rattle.gtfs_schema.specs.FieldValues.{amount, word};
ghost use Rattle.gtfs_rows.specs.Cells.{cell_text};
ghost use Rattle.gtfs_rows.specs.RowCells.{value_of_number as numbered};
ghost use Rattle.gtfs_writing.specs.TakenRecords.{choice_fields, with_fields};

use crate::digits::{one_digit, short_time, two_digits};
use crate::sink::Sink;
use crate::table_rows::TableRows;
use gtfs_field::{
    Clock, Colour, Coord, Day, OutOfMemory, Text, push_colour, push_coord, push_count, push_date,
    push_time,
};
use gtfs_rows::{DropOffType, PickupType, Timepoint};
use gtfs_table::File;
use std::alloc::Global;
use std::marker::Model;

// From here on a time has more than two digits of hours.
const HUNDRED_HOURS: u32 = 360_000;

// The fields of rows as canonical texts.
// Long numbers are written into one buffer that is used again.
pub(crate) struct Fields<S> {
    rows: S,
    buffer: String,
    alloc: Global,
}

impl<S> Model for Fields<S> {
    ghost Value = { S };

    ghost view = { λ f. f.rows };
}

impl<S: Sink> Fields<S> {
    pub(crate) fn new(alloc: Global, rows: S) -> Fields<S>
        ensures { result ≡ rows }
    {
        Fields {
            rows,
            buffer: String::new(alloc),
            alloc,
        }
    }

    pub(crate) fn alloc(&self) -> Global {
        self.alloc
    }

    pub(crate) fn into_rows(self) -> S
        ensures { result ≡ self }
    {
        let Fields {
            rows,
            buffer: _,
            alloc: _,
        } = self;
        rows
    }

    pub(crate) fn first(&mut self, field: &str) -> Result<(), OutOfMemory>
        ensures { OnOk result (self.new ≡ S.takes.first self.old field.now) }
    {
        self.rows.first(field)
    }

    // The first field where it is known whether it needs quotes.
    pub(crate) fn known_first(&mut self, field: &str, is_quoted: bool) -> Result<(), OutOfMemory>
        requires { is_quoted ≡ needs_quotes default_writer field.now }
        ensures { OnOk result (self.new ≡ S.takes.first self.old field.now) }
    {
        if is_quoted {
            self.rows.first(field)
        } else {
            self.rows.plain_first(field)
        }
    }

    // A further field that needs no quotes where it is known to be plain.
    #[inline(always)]
    pub(crate) fn known_text(&mut self, field: &str, is_plain: bool) -> Result<(), OutOfMemory>
        requires { is_plain ≡ true → needs_quotes default_writer field.now ≡ false }
        ensures { OnOk result (self.new ≡ S.takes.next self.old field.now) }
    {
        if is_plain {
            self.rows.plain(field)
        } else {
            self.rows.next(field)
        }
    }

    pub(crate) fn last(&mut self) -> Result<(), OutOfMemory>
        ensures { OnOk result (self.new ≡ S.takes.last self.old) }
    {
        self.rows.last()
    }

    pub(crate) fn text(&mut self, field: &str) -> Result<(), OutOfMemory>
        ensures { OnOk result (self.new ≡ S.takes.next self.old field.now) }
    {
        self.rows.next(field)
    }

    // An empty field.
    fn nothing(&mut self) -> Result<(), OutOfMemory>
        ensures { OnOk result (self.new ≡ S.takes.next self.old []) }
    {
        self.plain(b",")
    }

    pub(crate) fn optional_text(&mut self, field: &Option<Text>) -> Result<(), OutOfMemory>
        ensures { OnOk result ((kind : Kind)
            → self.new ≡ S.takes.next self.old (cell_text kind (option_map word field.now))) }
    {
        match field {
            Some(text) => self.text(text.as_str()),
            None => self.nothing(),
        }
    }

    #[inline(always)]
    pub(crate) fn number(&mut self, number: u32) -> Result<(), OutOfMemory>
        ensures { OnOk result (self.new ≡ S.takes.next self.old (count_text number)) }
    {
        match number {
            0..=9 => self.plain(&one_digit(number)),
            10..=99 => self.plain(&two_digits(number)),
            _ => self.long_number(number),
        }
    }

    fn long_number(&mut self, number: u32) -> Result<(), OutOfMemory>
        ensures { OnOk result (self.new ≡ S.takes.next self.old (count_text number)) }
    {
        self.buffer.clear();
        push_count(self.alloc, &mut self.buffer, number)?;
        self.rows.next(self.buffer.as_str())
    }

    // A field of ASCII bytes that need no quotes, with its comma before it.
    fn plain(&mut self, bytes: &[u8]) -> Result<(), OutOfMemory>
        requires ascii { IsAscii bytes.now }
        requires comma { bytes.now ≡ comma ∷ drop 1 bytes.now }
        requires plain { needs_quotes default_writer (drop 1 bytes.now) ≡ false }
        ensures { OnOk result (self.new ≡ S.takes.next self.old (drop 1 bytes.now)) }
    {
        self.rows.plain_with_comma(bytes)
    }

    pub(crate) fn optional_count(&mut self, number: Option<u32>) -> Result<(), OutOfMemory>
        ensures { OnOk result
            (self.new ≡ S.takes.next self.old (cell_text count (option_map numbered number))) }
    {
        match number {
            Some(number) => self.number(number),
            None => self.nothing(),
        }
    }

    #[inline(always)]
    pub(crate) fn optional_choice(&mut self, number: Option<u32>) -> Result<(), OutOfMemory>
        ensures { OnOk result ((ranges : List (ℕ × ℕ))
            → self.new ≡ S.takes.next self.old
            (cell_text (choice ranges) (option_map numbered number))) }
    {
        match number {
            Some(number) => self.number(number),
            None => self.nothing(),
        }
    }

    #[inline(always)]
    pub(crate) fn time(&mut self, clock: Clock) -> Result<(), OutOfMemory>
        ensures { OnOk result (self.new ≡ S.takes.next self.old (time_text clock)) }
    {
        let seconds = clock.seconds();
        if seconds < HUNDRED_HOURS {
            self.plain(&short_time(seconds))
        } else {
            self.long_time(clock)
        }
    }

    fn long_time(&mut self, clock: Clock) -> Result<(), OutOfMemory>
        ensures { OnOk result (self.new ≡ S.takes.next self.old (time_text clock)) }
    {
        self.buffer.clear();
        push_time(self.alloc, &mut self.buffer, clock)?;
        self.rows.next(self.buffer.as_str())
    }

    pub(crate) fn optional_time(&mut self, clock: Option<Clock>) -> Result<(), OutOfMemory>
        ensures { OnOk result
            (self.new ≡ S.takes.next self.old (cell_text time (option_map numbered clock))) }
    {
        match clock {
            Some(clock) => self.time(clock),
            None => self.nothing(),
        }
    }

    // Two times, which in most rows are the same.
    #[inline(always)]
    pub(crate) fn optional_times(
        &mut self,
        first: Option<Clock>,
        second: Option<Clock>,
    ) -> Result<(), OutOfMemory>
        ensures { OnOk result (self.new ≡ S.takes.next
            (S.takes.next self.old (cell_text time (option_map numbered first)))
            (cell_text time (option_map numbered second))) }
    {
        if first != second {
            self.optional_time(first)?;
            return self.optional_time(second);
        }
        match first {
            Some(clock) => self.time_twice(clock),
            None => {
                self.nothing()?;
                self.nothing()
            }
        }
    }

    // A time in two fields, made once.
    #[inline(always)]
    fn time_twice(&mut self, clock: Clock) -> Result<(), OutOfMemory>
        ensures { OnOk result (self.new
            ≡ S.takes.next (S.takes.next self.old (time_text clock)) (time_text clock)) }
    {
        let seconds = clock.seconds();
        if seconds < HUNDRED_HOURS {
            let text = short_time(seconds);
            self.plain(&text)?;
            self.plain(&text)
        } else {
            self.long_time(clock)?;
            self.long_time(clock)
        }
    }

    // The last fields of a stop time that has no headsign, and the end of the row.
    #[inline(always)]
    pub(crate) fn choices(
        &mut self,
        pickup: PickupType,
        drop_off: DropOffType,
        timepoint: Option<Timepoint>,
    ) -> Result<(), OutOfMemory>
        ensures { OnOk result (self.new ≡ S.takes.last
            (with_fields S.takes self.old (choice_fields pickup drop_off timepoint))) }
    {
        self.rows.choices(pickup, drop_off, timepoint)
    }

    pub(crate) fn date(&mut self, day: Day) -> Result<(), OutOfMemory>
        ensures { OnOk result (self.new ≡ S.takes.next self.old (date_text day)) }
    {
        self.buffer.clear();
        push_date(self.alloc, &mut self.buffer, day)?;
        self.rows.next(self.buffer.as_str())
    }

    pub(crate) fn colour(&mut self, colour: Colour) -> Result<(), OutOfMemory>
        ensures { OnOk result (self.new ≡ S.takes.next self.old (colour_text colour)) }
    {
        self.buffer.clear();
        push_colour(self.alloc, &mut self.buffer, colour)?;
        self.rows.next(self.buffer.as_str())
    }

    pub(crate) fn optional_coord(&mut self, coord: Option<Coord>) -> Result<(), OutOfMemory>
        ensures { OnOk result ((axis : Axis)
            → self.new ≡ S.takes.next self.old
            (cell_text (coordinate axis) (option_map amount coord))) }
    {
        match coord {
            Some(coord) => self.coord(coord),
            None => self.nothing(),
        }
    }

    fn coord(&mut self, coord: Coord) -> Result<(), OutOfMemory>
        ensures { OnOk result (self.new ≡ S.takes.next self.old (coordinate_text coord)) }
    {
        self.buffer.clear();
        push_coord(self.alloc, &mut self.buffer, coord)?;
        self.rows.next(self.buffer.as_str())
    }

    pub(crate) fn flag(&mut self, flag: bool) -> Result<(), OutOfMemory>
        ensures { OnOk result
            (self.new ≡ S.takes.next self.old (count_text (if flag then 1 else 0))) }
    {
        self.number(u32::from(flag))
    }
}

impl Fields<TableRows> {
    // From here on the rows are those of this file.
    pub(crate) fn go_to(&mut self, file: File)
        ensures { self.new ≡ record self.old { file = file } }
    {
        self.rows.file = file;
    }
}
