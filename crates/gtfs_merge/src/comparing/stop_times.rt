ghost use Rattle.std.specs.Option.{option_eq};
ghost use Rattle.std.specs.Prelude.{◌≡◌, ◌<◌, IfSome, None, Some, length, map, nat_eq, option_map, slice_index_or, true};
ghost use Rattle.gtfs_rows.specs.Trips.{AreStopTimes};
ghost use Rattle.gtfs_rows.specs.RowsInMemory.{text_of_number};
ghost use Rattle.gtfs_rows.specs.declared.parts.Parts.{Parts};
ghost use Rattle.gtfs_merge.specs.Renaming.{Renaming, stop_b};
ghost use Rattle.gtfs_merge.specs.SameRows.{same_text};
ghost use Rattle.gtfs_merge.specs.SameByNumber.{same_headsign_in, same_stop_id_in, same_stop_row_in, same_stop_rows_in};
ghost use Rattle.gtfs_merge.specs.MergedSides.{content_a, content_b, nearness_of};
ghost use Rattle.gtfs_merge.specs.Twins.{twin_numbers};
ghost use Rattle.gtfs_merge.specs.declared.kind.Kind.TheVariants as kind;

use crate::comparing::values::{is_same_number, is_same_time};
use crate::sides::Sides;
use gtfs_rows::{OptionalHeadsign, StopNo, StopRow, Timepoint};

// Whether stop times of A and of B are the same, one by one,
// where `stops` has the twin of each stop of B.
pub(crate) fn are_same_stop_times(
    sides: &Sides,
    stops: &[Option<StopNo>],
    rows_a: &[StopRow],
    rows_b: &[StopRow],
) -> bool
    requires stops { map (option_map (λ n. n.0)) stops.now ≡ twin_numbers kind.Stop sides.now }
    requires rows_a { AreStopTimes sides.now.a.now rows_a.now }
    requires rows_b { AreStopTimes sides.now.b.now rows_b.now }
    ensures { result ≡ same_stop_rows_in sides.now.a.now sides.now.b.now
        (stop_b (nearness_of sides.now) (content_a sides.now) (content_b sides.now))
        rows_a.now rows_b.now }
{
    if rows_a.len() != rows_b.len() {
        return false;
    }
    for number in 0..rows_a.len() {
        if !is_same_stop_time(sides, stops, rows_a[number], rows_b[number]) {
            return false;
        }
    }
    true
}

// Whether a stop time of A and one of B are the same.
fn is_same_stop_time(
    sides: &Sides,
    stops: &[Option<StopNo>],
    row_a: StopRow,
    row_b: StopRow,
) -> bool
    requires stops { map (option_map (λ n. n.0)) stops.now ≡ twin_numbers kind.Stop sides.now }
    requires stop_a { row_a.stop_id.0 < length sides.now.a.now.stops }
    requires stop_b { row_b.stop_id.0 < length sides.now.b.now.stops }
    requires headsign_a { IfSome row_a.stop_headsign (λ n. n < length sides.now.a.now.headsigns) }
    requires headsign_b { IfSome row_b.stop_headsign (λ n. n < length sides.now.b.now.headsigns) }
    ensures { result ≡ same_stop_row_in sides.now.a.now sides.now.b.now
        (stop_b (nearness_of sides.now) (content_a sides.now) (content_b sides.now)) row_a row_b }
{
    sides.soundness();
    let stop = is_twin(stops, row_b.stop_id, row_a.stop_id);
    let headsign = is_same_headsign(sides, row_a.stop_headsign, row_b.stop_headsign);
    is_same_stop_row(row_a, row_b, stop, headsign)
}

// Whether the twin of a stop of B is this one of A.
fn is_twin(stops: &[Option<StopNo>], stop: StopNo, other: StopNo) -> bool
    requires { stop.0 < length stops.now }
    ensures { result ≡ option_eq nat_eq (Some other.0)
        (slice_index_or (map (option_map (λ n. n.0)) stops.now) stop.0 None) }
{
    stops[stop.0] == Some(other)
}

// Whether neither of two stop times has a headsign, or both have the same text.
fn is_same_headsign(sides: &Sides, of_a: OptionalHeadsign, of_b: OptionalHeadsign) -> bool
    requires of_a { IfSome of_a (λ n. n < length sides.now.a.now.headsigns) }
    requires of_b { IfSome of_b (λ n. n < length sides.now.b.now.headsigns) }
    ensures { result ≡ same_text (option_map (text_of_number sides.now.a.now.headsigns) of_a)
        (option_map (text_of_number sides.now.b.now.headsigns) of_b) }
{
    match (of_a.get(), of_b.get()) {
        (Some(first), Some(second)) => sides.a.headsign(first) == sides.b.headsign(second),
        (None, None) => true,
        _ => false,
    }
}

// Whether two stop times are the same,
// where `stop` and `headsign` tell whether their stops and their headsigns are.
fn is_same_stop_row(a: StopRow, b: StopRow, stop: bool, headsign: bool) -> bool
    ensures { (p q : Parts) (rename : Renaming) → same_stop_id_in p q rename a b ≡ stop
        → same_headsign_in p q a b ≡ headsign → result ≡ same_stop_row_in p q rename a b }
{
    is_same_time(a.arrival_time, b.arrival_time)
        && is_same_time(a.departure_time, b.departure_time)
        && stop
        && a.stop_sequence == b.stop_sequence
        && headsign
        && a.pickup_type.number() == b.pickup_type.number()
        && a.drop_off_type.number() == b.drop_off_type.number()
        && is_same_number(
            a.timepoint.map(Timepoint::number),
            b.timepoint.map(Timepoint::number),
        )
}
