ghost use Rattle.std.specs.Prelude.{◌≡◌, ◌<◌};
ghost use Rattle.gtfs_schema.specs.Codes.{all_codes, code_name, code_rank, code_text, is_error};

/// What a problem is: an error, whose name begins with `E`, or a warning,
/// whose name begins with `W`.
///
/// Codes are ordered as they are listed, the errors before the warnings. A feed with an error does
/// not pass; a warning reports of something that the other crates pass over.
#[derive(Clone, Copy, Debug, PartialEq, Eq, PartialOrd, Ord)]
pub enum Code {
    /// A file that a dataset has to have is absent.
    E01,
    /// A file is not UTF-8.
    E02,
    /// The header lacks a required column.
    E03,
    /// The header names a kept column more than once.
    E04,
    /// A file that a dataset has to have holds no record, or `agency.txt` holds no agency.
    E05,
    /// A required value is empty.
    E06,
    /// A value does not have the shape of its kind.
    E07,
    /// A value lies outside the limits of its kind.
    E08,
    /// An earlier row of the file has the same key.
    E09,
    /// A value names a row that is not there.
    E10,
    /// A value names a stop of another location type than is wanted.
    E11,
    /// A value is missing or forbidden beside the other values of its row.
    E12,
    /// Two agencies name different time zones.
    E13,
    /// A calendar row ends before it starts.
    E14,
    /// The first or the last row of a trip has no time.
    E15,
    /// A departure lies before the arrival of its row.
    E16,
    /// An arrival lies before the departure of the timed row before it.
    E17,
    /// A period of frequencies does not end after its start.
    E18,
    /// A period shares a second with an earlier one of its trip.
    E19,
    /// An id holds a control character.
    E20,
    /// A row has fewer fields than the header.
    W01,
    /// A row has more fields than the header.
    W02,
    /// The folder holds a file that is not kept.
    W03,
    /// The header names a column that is not kept.
    W04,
    /// A text holds a control character.
    W05,
    /// A trip has fewer than two rows of stop times.
    W06,
    /// A service runs on no day.
    W07,
    /// A row has one of its two times alone.
    W08,
}

impl Code {
    /// The codes, each once, in their order.
    pub fn all() -> [Code; 28]
        ensures { result ≡ all_codes }
    {
        [
            Code::E01,
            Code::E02,
            Code::E03,
            Code::E04,
            Code::E05,
            Code::E06,
            Code::E07,
            Code::E08,
            Code::E09,
            Code::E10,
            Code::E11,
            Code::E12,
            Code::E13,
            Code::E14,
            Code::E15,
            Code::E16,
            Code::E17,
            Code::E18,
            Code::E19,
            Code::E20,
            Code::W01,
            Code::W02,
            Code::W03,
            Code::W04,
            Code::W05,
            Code::W06,
            Code::W07,
            Code::W08,
        ]
    }

    /// The code's name, as `E07`.
    pub fn name(self) -> &'static str
        ensures { result.now ≡ code_name self }
    {
        match self {
            Code::E01 => "E01",
            Code::E02 => "E02",
            Code::E03 => "E03",
            Code::E04 => "E04",
            Code::E05 => "E05",
            Code::E06 => "E06",
            Code::E07 => "E07",
            Code::E08 => "E08",
            Code::E09 => "E09",
            Code::E10 => "E10",
            Code::E11 => "E11",
            Code::E12 => "E12",
            Code::E13 => "E13",
            Code::E14 => "E14",
            Code::E15 => "E15",
            Code::E16 => "E16",
            Code::E17 => "E17",
            Code::E18 => "E18",
            Code::E19 => "E19",
            Code::E20 => "E20",
            Code::W01 => "W01",
            Code::W02 => "W02",
            Code::W03 => "W03",
            Code::W04 => "W04",
            Code::W05 => "W05",
            Code::W06 => "W06",
            Code::W07 => "W07",
            Code::W08 => "W08",
        }
    }

    /// What the code says, as `value unreadable`.
    pub fn text(self) -> &'static str
        ensures { result.now ≡ code_text self }
    {
        match self {
            Code::E01 => "file missing",
            Code::E02 => "not UTF-8",
            Code::E03 => "column missing",
            Code::E04 => "column twice",
            Code::E05 => "file empty",
            Code::E06 => "value empty",
            Code::E07 => "value unreadable",
            Code::E08 => "value out of range",
            Code::E09 => "key twice",
            Code::E10 => "unknown reference",
            Code::E11 => "wrong kind of stop",
            Code::E12 => "value missing or forbidden",
            Code::E13 => "zones differ",
            Code::E14 => "end before start",
            Code::E15 => "first or last row untimed",
            Code::E16 => "departure before arrival",
            Code::E17 => "time goes back",
            Code::E18 => "period empty",
            Code::E19 => "periods overlap",
            Code::E20 => "control character in id",
            Code::W01 => "short row",
            Code::W02 => "long row",
            Code::W03 => "file not kept",
            Code::W04 => "column not kept",
            Code::W05 => "control character in text",
            Code::W06 => "fewer than two rows",
            Code::W07 => "service never active",
            Code::W08 => "one time of two",
        }
    }

    /// Whether the code is that of an error, and not of a warning.
    pub fn is_error(self) -> bool
        ensures { result ≡ is_error self }
    {
        self < Code::W01
    }

    // The code's rank in the order, from 0.
    pub(crate) fn rank(self) -> u8
        ensures { result ≡ code_rank self }
    {
        self as u8
    }
}
