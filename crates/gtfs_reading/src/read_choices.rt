//! The choices of a row, as the typed rows keep them.

ghost use Rattle.std.specs.Prelude.{◌≡◌, [], ◌∷◌, codes, option_map};
ghost use Rattle.gtfs_schema.specs.Columns as kind;
ghost use Rattle.gtfs_reading.specs.NumbersOfIds.{chosen, number_if_there, number_of};
ghost use Rattle.gtfs_rows.specs.RowChoices.{bikes_code, boarding_code, direction_code, exact_code, location_code, transfer_code, wheelchair_code};

use crate::numbers::{choice, choice_or, optional_choice};
use gtfs_rows::{
    BikesAllowed, Direction, ExactTimes, LocationType, RouteType, TransferType,
    WheelchairAccessible, WheelchairBoarding,
};

// The kind of transport, `route_type` of routes.txt.
pub(crate) fn route_type(text: &str) -> RouteType
    ensures { result ≡ number_of kind.route_types text.now }
{
    RouteType::from_number(choice(&[(0, 7), (11, 12), (100, 1799)], text))
}

pub(crate) fn location_type(text: &str) -> LocationType
    ensures { location_code result ≡ chosen ((0, 4) ∷ []) (codes "0") text.now }
{
    LocationType::from_number(choice_or(&[(0, 4)], "0", text))
}

pub(crate) fn wheelchair_boarding(text: &str) -> WheelchairBoarding
    ensures { boarding_code result ≡ chosen ((0, 2) ∷ []) (codes "0") text.now }
{
    WheelchairBoarding::from_number(choice_or(&[(0, 2)], "0", text))
}

pub(crate) fn wheelchair_accessible(text: &str) -> WheelchairAccessible
    ensures { wheelchair_code result ≡ chosen ((0, 2) ∷ []) (codes "0") text.now }
{
    WheelchairAccessible::from_number(choice_or(&[(0, 2)], "0", text))
}

pub(crate) fn bikes_allowed(text: &str) -> BikesAllowed
    ensures { bikes_code result ≡ chosen ((0, 2) ∷ []) (codes "0") text.now }
{
    BikesAllowed::from_number(choice_or(&[(0, 2)], "0", text))
}

pub(crate) fn exact_times(text: &str) -> ExactTimes
    ensures { exact_code result ≡ chosen ((0, 1) ∷ []) (codes "0") text.now }
{
    ExactTimes::from_number(choice_or(&[(0, 1)], "0", text))
}

pub(crate) fn transfer_type(text: &str) -> TransferType
    ensures { transfer_code result ≡ chosen ((0, 5) ∷ []) (codes "0") text.now }
{
    TransferType::from_number(choice_or(&[(0, 5)], "0", text))
}

pub(crate) fn direction(text: &str) -> Option<Direction>
    ensures { option_map direction_code result ≡ number_if_there (kind.up_to 1) text.now }
{
    let number = optional_choice(&[(0, 1)], text)?;
    Some(Direction::from_number(number))
}
