ghost use Rattle.std.specs.Prelude.{◌≡◌, ◌<◌, All, IfOk, length, map, nat_eq, option_map, Some};
ghost use Rattle.std.specs.List.{list_any};
ghost use Rattle.std.specs.List.Sorted.{IsPermutation, IsSorted};
ghost use Rattle.std.specs.Option.{option_eq};
ghost use Rattle.gtfs_rows.specs.RowsInMemory.{IsSoundParts, content_of_parts};
ghost use Rattle.gtfs_advice.specs.NumberMarks.{AreMarks};
ghost use Rattle.gtfs_advice.specs.NamedRoutes.{AreNamed, IsNamed, listed_cmp, name_cmp, neighbours, repeated};
ghost use Rattle.gtfs_advice.specs.Routes.{is_named_as_another};

use gtfs_field::{OutOfMemory, Text};
use gtfs_rows::{AgencyNo, Parts, Route};
use std::alloc::Global;
use std::cmp::Ordering;

// A route by its number, with what it has in common with another one of its names.
#[derive(Clone, Copy)]
struct NamedRoute<'a> {
    agency: AgencyNo,
    route_type: u32,
    short_name: Option<&'a str>,
    long_name: Option<&'a str>,
    number: usize,
}

// Of each route, by its number, whether it is named as another one.
pub(crate) fn named_as_others(alloc: Global, parts: &Parts) -> Result<Vec<bool>, OutOfMemory>
    requires { IsSoundParts parts.now }
    ensures { let c = content_of_parts parts.now
        in IfOk result (λ marks. marks.items ≡ map (is_named_as_another c) c.routes) }
{
    let listed = in_order(by_number(alloc, parts.routes.as_slice())?);
    repeats(alloc, &listed)
}

// The routes by their numbers.
fn by_number<'a>(alloc: Global, routes: &'a [Route]) -> Result<Vec<NamedRoute<'a>>, OutOfMemory>
    ensures { IfOk result (λ listed. AreNamed routes.now listed.items) }
{
    let mut listed = Vec::with_capacity(alloc, routes.len())?;
    for (number, route) in routes.iter().enumerate() {
        listed.push(named(number, route))?;
    }
    Ok(listed)
}

fn named(number: usize, route: &Route) -> NamedRoute<'_>
    ensures { IsNamed number route.now result }
{
    NamedRoute {
        agency: route.agency_id,
        route_type: route.route_type.number(),
        short_name: route.route_short_name.as_ref().map(Text::as_str),
        long_name: route.route_long_name.as_ref().map(Text::as_str),
        number,
    }
}

// Routes of one name stand one after the other, by their numbers.
fn in_order(mut listed: Vec<NamedRoute<'_>>) -> Vec<NamedRoute<'_>>
    ensures same { IsPermutation listed.entry.items result.items }
    ensures in_order { IsSorted listed_cmp result.items }
{
    listed.sort_unstable_by(|a, b| name_order(a, b).then(a.number.cmp(&b.number)));
    listed
}

fn name_order(a: &NamedRoute<'_>, b: &NamedRoute<'_>) -> Ordering
    ensures { result ≡ name_cmp a.now b.now }
{
    a.agency
        .cmp(&b.agency)
        .then(a.route_type.cmp(&b.route_type))
        .then(a.short_name.cmp(&b.short_name))
        .then(a.long_name.cmp(&b.long_name))
}

// Of each route, by its number, whether the one that stands before it has its names.
fn repeats(alloc: Global, listed: &[NamedRoute<'_>]) -> Result<Vec<bool>, OutOfMemory>
    requires { All (λ x. x.number < length listed.now) listed.now }
    ensures { IfOk result (λ marks. AreMarks (length listed.now)
        (λ k. list_any (λ w. option_eq nat_eq (repeated w) (Some k)) (neighbours listed.now)) marks.items) }
{
    let mut marks = vec![in alloc; false; listed.len()]?;
    for place in 1..listed.len() {
        let before = &listed[place - 1];
        let route = &listed[place];
        if name_order(before, route).is_eq() {
            marks[route.number] = true;
        }
    }
    Ok(marks)
}
