ghost use Rattle.std.specs.Prelude.{◌≡◌, ◌+◌, ◌<◌, ◌^◌, None, Some, IfOk, length};
ghost use Rattle.gtfs_schema.specs.steps.Ids.{ids_of, number_with};
ghost use Rattle.gtfs_trip_rules.specs.TripNumbers.{number_of_trip, AreNamed, Keeps};

use gtfs_field::OutOfMemory;
use gtfs_schema::Ids;
use std::collections::BTreeMap;

// The number of a trip that a row names, which this is where trips.txt has the trip.
pub(crate) fn trip_number<'a>(
    trips: &Ids<'a>,
    numbers: &mut BTreeMap<&'a str, usize>,
    names: &mut Vec<&'a str>,
    id: &'a str,
    number: Option<usize>,
) -> Result<usize, OutOfMemory>
    requires named { AreNamed (ids_of trips.now) numbers.old names.old.items }
    requires number { number ≡ number_with trips.now id.now }
    ensures named { AreNamed (ids_of trips.now) numbers.new names.new.items }
    ensures keeps { Keeps (ids_of trips.now) numbers.old numbers.new }
    ensures number { IfOk result (λ n. number_of_trip (ids_of trips.now) numbers.new id.now ≡ Some n) }
{
    match number {
        Some(number) => Ok(number),
        None => number_of_other(trips, numbers, names, id),
    }
}

// The number of a trip that trips.txt lacks. One that is new gets the next number.
fn number_of_other<'a>(
    trips: &Ids<'a>,
    numbers: &mut BTreeMap<&'a str, usize>,
    names: &mut Vec<&'a str>,
    id: &'a str,
) -> Result<usize, OutOfMemory>
    requires named { AreNamed (ids_of trips.now) numbers.old names.old.items }
    requires other { number_with trips.now id.now ≡ None }
    ensures named { AreNamed (ids_of trips.now) numbers.new names.new.items }
    ensures keeps { Keeps (ids_of trips.now) numbers.old numbers.new }
    ensures number { IfOk result (λ n. number_of_trip (ids_of trips.now) numbers.new id.now ≡ Some n) }
{
    if let Some(number) = numbers.get(id) {
        return Ok(*number);
    }
    let number = trips.len() + names.len();
    names.push(id)?;
    numbers.insert(id, number)?;
    Ok(number)
}
