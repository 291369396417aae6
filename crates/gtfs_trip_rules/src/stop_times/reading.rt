ghost use Rattle.std.specs.Prelude.{◌≡◌, option_map, pos};
ghost use Rattle.gtfs_schema.specs.Columns.{count, time, up_to};
ghost use Rattle.gtfs_trip_rules.specs.StopTimeFields.{code_in, fault_in, fault_of, is_blank, is_fault, value_in, value_or};
ghost use Rattle.gtfs_trip_rules.specs.StopTimes.{IsReading};
ghost use Rattle.gtfs_schema.specs.FieldValues.{amount, readable};
ghost use Rattle.gtfs_table.specs.Rows.{is_empty};
ghost use Rattle.gtfs_field.specs.Kinds.{count_of};
ghost use Rattle.gtfs_stop_times.specs.StopTimeChoices.{drop_off_code, pickup_code, timepoint_code};

use gtfs_field::{Clock, FieldFault, read_count, read_time};
use gtfs_schema::{Code, are_equal};
use gtfs_stop_times::{DropOffType, PickupType, Timepoint};

// What reading a field found.
#[derive(Clone, Copy)]
pub(crate) enum Reading<V> {
    Empty,
    Fault(Code),
    Value(V),
}

impl<V: Copy> Reading<V> {
    pub(crate) fn is_empty(&self) -> bool
        ensures { result ≡ is_blank self.now }
    {
        match self {
            Reading::Empty => true,
            Reading::Fault(_) => false,
            Reading::Value(_) => false,
        }
    }

    pub(crate) fn is_fault(&self) -> bool
        ensures { result ≡ is_fault self.now }
    {
        match self {
            Reading::Empty => false,
            Reading::Fault(_) => true,
            Reading::Value(_) => false,
        }
    }

    // The value, if there is one.
    pub(crate) fn value(&self) -> Option<V>
        ensures { result ≡ value_in self.now }
    {
        match self {
            Reading::Empty => None,
            Reading::Fault(_) => None,
            Reading::Value(value) => Some(*value),
        }
    }

    pub(crate) fn copied(&self) -> Reading<V>
        ensures { result ≡ self.now }
    {
        match self {
            Reading::Empty => Reading::Empty,
            Reading::Fault(code) => Reading::Fault(*code),
            Reading::Value(value) => Reading::Value(*value),
        }
    }

    // This value, and else the other one: none where one of the two fields is not as it has to be.
    pub(crate) fn or(&self, other: &Reading<V>) -> Option<V>
        ensures { result ≡ value_or self.now other.now }
    {
        match (self, other) {
            (Reading::Fault(_), _) => None,
            (_, Reading::Fault(_)) => None,
            (Reading::Empty, other) => other.value(),
            (Reading::Value(value), _) => Some(*value),
        }
    }

    // What is wrong with the field, if anything, where its column has to be filled or not.
    pub(crate) fn code(&self, is_required: bool) -> Option<Code>
        ensures { result ≡ code_in is_required self.now }
    {
        match self {
            Reading::Empty => is_required.then_some(Code::E06),
            Reading::Fault(code) => Some(*code),
            Reading::Value(_) => None,
        }
    }
}

#[inline(always)]
pub(crate) fn read_clock(text: &str) -> Reading<Clock>
    ensures empty { is_blank result ≡ is_empty text.now }
    ensures fault { fault_in result ≡ fault_of time text.now }
    ensures value { option_map (λ n. amount (pos n)) (value_in result) ≡ readable time text.now }
{
    if text.is_empty() {
        return Reading::Empty;
    }
    match read_time(text) {
        Ok(time) => Reading::Value(time),
        Err(FieldFault::Form) => Reading::Fault(Code::E07),
        Err(FieldFault::Range) => Reading::Fault(Code::E08),
    }
}

// The same of a time beside another one, which was read already and mostly is the same text.
#[inline(always)]
pub(crate) fn read_beside(text: &str, other: &str, read: &Reading<Clock>) -> Reading<Clock>
    requires { IsReading time (λ n. amount (pos n)) other.now read.now }
    ensures { IsReading time (λ n. amount (pos n)) text.now result }
{
    if are_equal(text.as_bytes(), other.as_bytes()) {
        read.copied()
    } else {
        read_clock(text)
    }
}

// Reads a count, which mostly is one digit.
#[inline(always)]
fn read_short_count(text: &str) -> Result<u32, FieldFault>
    ensures { result ≡ count_of text.now }
{
    match text.as_bytes() {
        [digit @ b'0'..=b'9'] => Ok(u32::from(*digit - b'0')),
        _ => read_count(text),
    }
}

#[inline(always)]
pub(crate) fn read_number(text: &str) -> Reading<u32>
    ensures empty { is_blank result ≡ is_empty text.now }
    ensures fault { fault_in result ≡ fault_of count text.now }
    ensures value { option_map (λ n. amount (pos n)) (value_in result) ≡ readable count text.now }
{
    if text.is_empty() {
        return Reading::Empty;
    }
    match read_short_count(text) {
        Ok(number) => Reading::Value(number),
        Err(FieldFault::Form) => Reading::Fault(Code::E07),
        Err(FieldFault::Range) => Reading::Fault(Code::E08),
    }
}

// How riders board.
#[inline(always)]
pub(crate) fn read_pickup_type(text: &str) -> Reading<PickupType>
    ensures empty { is_blank result ≡ is_empty text.now }
    ensures fault { fault_in result ≡ fault_of (up_to 3) text.now }
    ensures value { option_map (λ b. amount (pos (pickup_code b))) (value_in result)
        ≡ readable (up_to 3) text.now }
{
    if text.is_empty() {
        return Reading::Empty;
    }
    match read_short_count(text) {
        Ok(0) => Reading::Value(PickupType::Regular),
        Ok(1) => Reading::Value(PickupType::None),
        Ok(2) => Reading::Value(PickupType::Phone),
        Ok(3) => Reading::Value(PickupType::Driver),
        Ok(4..) => Reading::Fault(Code::E08),
        Err(FieldFault::Form) => Reading::Fault(Code::E07),
        Err(FieldFault::Range) => Reading::Fault(Code::E08),
    }
}

// How riders alight.
#[inline(always)]
pub(crate) fn read_drop_off_type(text: &str) -> Reading<DropOffType>
    ensures empty { is_blank result ≡ is_empty text.now }
    ensures fault { fault_in result ≡ fault_of (up_to 3) text.now }
    ensures value { option_map (λ b. amount (pos (drop_off_code b))) (value_in result)
        ≡ readable (up_to 3) text.now }
{
    if text.is_empty() {
        return Reading::Empty;
    }
    match read_short_count(text) {
        Ok(0) => Reading::Value(DropOffType::Regular),
        Ok(1) => Reading::Value(DropOffType::None),
        Ok(2) => Reading::Value(DropOffType::Phone),
        Ok(3) => Reading::Value(DropOffType::Driver),
        Ok(4..) => Reading::Fault(Code::E08),
        Err(FieldFault::Form) => Reading::Fault(Code::E07),
        Err(FieldFault::Range) => Reading::Fault(Code::E08),
    }
}

// How exact the times of a row are.
#[inline(always)]
pub(crate) fn read_timepoint(text: &str) -> Reading<Timepoint>
    ensures empty { is_blank result ≡ is_empty text.now }
    ensures fault { fault_in result ≡ fault_of (up_to 1) text.now }
    ensures value { option_map (λ e. amount (pos (timepoint_code e))) (value_in result)
        ≡ readable (up_to 1) text.now }
{
    if text.is_empty() {
        return Reading::Empty;
    }
    match read_short_count(text) {
        Ok(0) => Reading::Value(Timepoint::Approximate),
        Ok(1) => Reading::Value(Timepoint::Exact),
        Ok(2..) => Reading::Fault(Code::E08),
        Err(FieldFault::Form) => Reading::Fault(Code::E07),
        Err(FieldFault::Range) => Reading::Fault(Code::E08),
    }
}
