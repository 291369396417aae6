ghost use Rattle.std.specs.Prelude.{◌≡◌};
ghost use Rattle.gtfs_rows.specs.declared.parts.Parts.{Parts};
ghost use Rattle.gtfs_merge.specs.Renaming.{Renaming};
ghost use Rattle.gtfs_merge.specs.SameByNumber.{same_agency_in, same_route_in};

use crate::comparing::values::{is_same_number, is_same_text};
use gtfs_rows::Route;

// Whether two routes are the same, their ids apart,
// where `agency` tells whether their agencies are.
pub(crate) fn is_same_route(a: &Route, b: &Route, agency: bool) -> bool
    ensures { (p q : Parts) (rename_a rename_b : Renaming)
        → same_agency_in p q rename_a rename_b a.now b.now ≡ agency
        → result ≡ same_route_in p q rename_a rename_b a.now b.now }
{
    agency
        && is_same_text(&a.route_short_name, &b.route_short_name)
        && is_same_text(&a.route_long_name, &b.route_long_name)
        && is_same_text(&a.route_desc, &b.route_desc)
        && a.route_type.number() == b.route_type.number()
        && is_same_text(&a.route_url, &b.route_url)
        && a.route_color.bits() == b.route_color.bits()
        && a.route_text_color.bits() == b.route_text_color.bits()
        && is_same_number(a.route_sort_order, b.route_sort_order)
}
