ghost use Rattle.std.specs.Prelude.{◌≡◌, IfOk, true};
ghost use Rattle.gtfs_rows.specs.RouteTypes.{is_route_type};

use crate::copies::copied_if_any;
use crate::numbers::AgencyNo;
use gtfs_field::{Colour, OutOfMemory, Text};
use std::alloc::Global;
use std::marker::Model;

/// The kind of transport of a route: a basic type, 0 to 7, 11 or 12, or an extended one, 100 to
/// 1799 (GTFS Schedule Reference, `route_type`).
#[derive(Clone, Copy, Debug, PartialEq, Eq)]
pub struct RouteType {
    number: u32,
}

impl Model for RouteType {
    ghost use Rattle.std.specs.Prelude.{ℕ, IsTrue};
    ghost use Rattle.gtfs_rows.specs.RouteTypes.{is_route_type};

    ghost Value = { ℕ };

    ghost view = { λ t. t.number };

    ghost invariant = { λ t. IsTrue (is_route_type t.number) };

    ghost inverse = { λ n. record { number = n } };
}

impl RouteType {
    /// The type of this number.
    pub fn from_number(number: u32) -> RouteType
        requires { is_route_type number ≡ true }
        ensures { result ≡ number }
    {
        RouteType { number }
    }

    /// Its number.
    pub fn number(self) -> u32
        ensures value { result ≡ self }
        ensures range { is_route_type result ≡ true }
    {
        self.number
    }
}

/// A row of `routes.txt` (GTFS Schedule Reference, `routes.txt`).
#[derive(Drop)]
pub struct Route {
    pub route_id: Text,
    /// The only agency of the feed where the row names none.
    pub agency_id: AgencyNo,
    pub route_short_name: Option<Text>,
    pub route_long_name: Option<Text>,
    pub route_desc: Option<Text>,
    pub route_type: RouteType,
    pub route_url: Option<Text>,
    pub route_color: Colour,
    pub route_text_color: Colour,
    /// 0 to 2,147,483,647.
    pub route_sort_order: Option<u32>,
}

impl Route {
    /// The route under this id and of this agency, else the same.
    ///
    /// # Errors
    /// `OutOfMemory` where a text cannot be copied.
    pub fn under(&self, alloc: Global, id: &str, agency: AgencyNo) -> Result<Route, OutOfMemory>
        ensures { IfOk result (λ other. other
            ≡ record self.now { route_id = id.now; agency_id = agency }) }
    {
        Ok(Route {
            route_id: Text::copy_of(alloc, id)?,
            agency_id: agency,
            route_short_name: copied_if_any(alloc, &self.route_short_name)?,
            route_long_name: copied_if_any(alloc, &self.route_long_name)?,
            route_desc: copied_if_any(alloc, &self.route_desc)?,
            route_type: self.route_type,
            route_url: copied_if_any(alloc, &self.route_url)?,
            route_color: self.route_color,
            route_text_color: self.route_text_color,
            route_sort_order: self.route_sort_order,
        })
    }
}
