ghost use Rattle.std.specs.Prelude.{◌≡◌, ◌<◌, ◌≤◌, ◌&&◌, true, false, All, IfOk, OnOk, length, map, nat_eq, is_none, is_some, Some};
ghost use Rattle.std.specs.List.{list_any};
ghost use Rattle.std.specs.Option.{option_eq};
ghost use Rattle.gtfs_rows.specs.Content.{Content};
ghost use Rattle.gtfs_rows.specs.NamedRows.{route_named};
ghost use Rattle.gtfs_rows.specs.RowsInMemory.{IsSoundParts, content_of_parts, route_of};
ghost use Rattle.gtfs_advice.specs.Advice.{Tells, answers_of, route_advice, route_rules};
ghost use Rattle.gtfs_advice.specs.NumberMarks.{AreMarks, is_directed, route_if};
ghost use Rattle.gtfs_advice.specs.Routes.{brightness, has_close_colours, is_garbled_route, has_long_short_name, is_named_as_another, is_of_route, repeats_short_name};

use crate::advice::{Advice, Subject, tell};
use crate::code::Code;
use crate::named_routes::named_as_others;
use crate::text_faults::{has_more_characters, is_garbled_if_given, repeats};
use gtfs_feed::Feed;
use gtfs_field::{Colour, OutOfMemory};
use gtfs_rows::{Parts, Route, RouteNo, Trip};
use std::alloc::Global;

// Tells the advice on routes.
pub(crate) fn tell_routes(
    alloc: Global,
    feed: &Feed,
    told: &mut Vec<Advice>,
) -> Result<(), OutOfMemory>
    ensures { OnOk result (Tells feed.now (route_advice (content_of_parts feed.now))
        told.old.items told.new.items) }
{
    let parts = feed.parts();
    let (routes, trips) = (parts.routes.len(), parts.trips.as_slice());
    let directed = with_trips(alloc, routes, trips, true)?;
    let undirected = with_trips(alloc, routes, trips, false)?;
    let repeated = named_as_others(alloc, parts)?;
    tell_each(parts, &directed, &undirected, &repeated, told)
}

// What the rows of others say of a route.
#[derive(Clone, Copy)]
struct Mentions {
    // Whether it has a trip with a direction, and one without.
    has_directed: bool,
    has_undirected: bool,
    // Whether an earlier route has its names.
    is_repeated: bool,
}

// The same of each route, where its marks say what the rows of others say of it.
fn tell_each(
    parts: &Parts,
    directed: &[bool],
    undirected: &[bool],
    repeated: &[bool],
    told: &mut Vec<Advice>,
) -> Result<(), OutOfMemory>
    requires sound { IsSoundParts parts.now }
    requires directed { AreMarks (length parts.now.routes)
        (λ k. list_any (λ t. option_eq nat_eq (route_if true t) (Some k)) parts.now.trips) directed.now }
    requires undirected { AreMarks (length parts.now.routes)
        (λ k. list_any (λ t. option_eq nat_eq (route_if false t) (Some k)) parts.now.trips) undirected.now }
    requires repeated { let c = content_of_parts parts.now
        in repeated.now ≡ map (is_named_as_another c) c.routes }
    ensures { OnOk result (Tells parts.now (route_advice (content_of_parts parts.now))
        told.old.items told.new.items) }
{
    for (number, route) in parts.routes.as_slice().iter().enumerate() {
        let mentions = Mentions {
            has_directed: directed[number],
            has_undirected: undirected[number],
            is_repeated: repeated[number],
        };
        let answers = answers(route, &mentions);
        tell(told, &Subject::Route(RouteNo(number)), &answers)?;
    }
    Ok(())
}

// Whether each rule holds of a route.
fn answers(route: &Route, mentions: &Mentions) -> [(Code, bool); 7]
    ensures { (ids : _) (c : Content) → let r = route_named ids route.now
        in list_any (λ t. is_of_route r t && is_some t.direction_id) c.trips ≡ mentions.now.has_directed
        → list_any (λ t. is_of_route r t && is_none t.direction_id) c.trips ≡ mentions.now.has_undirected
        → is_named_as_another c r ≡ mentions.now.is_repeated
        → result ≡ answers_of (route_rules c) r }
{
    let Mentions {
        has_directed,
        has_undirected,
        is_repeated,
    } = *mentions;
    [
        (Code::RouteWithoutTrip, !has_directed && !has_undirected),
        (Code::RouteNamedAsAnother, is_repeated),
        (Code::LongShortName, has_long_short_name(route)),
        (Code::RepeatedShortName, repeats_short_name(route)),
        (Code::CloseColours, has_close_colours(route)),
        (Code::DirectionOfSomeTrips, has_directed && has_undirected),
        (Code::GarbledRoute, is_garbled_route(route)),
    ]
}

// Of each of so many routes, by its number, whether it has a trip with a direction, or one without.
fn with_trips(
    alloc: Global,
    count: usize,
    trips: &[Trip],
    directed: bool,
) -> Result<Vec<bool>, OutOfMemory>
    requires { All (λ t. t.route_id.0 < count) trips.now }
    ensures { IfOk result (λ marks. AreMarks count
        (λ k. list_any (λ t. option_eq nat_eq (route_if directed t) (Some k)) trips.now) marks.items) }
{
    let mut marks = vec![in alloc; false; count]?;
    for trip in trips {
        if is_directed(trip, directed) {
            marks[trip.route_id.0] = true;
        }
    }
    Ok(marks)
}

// Whether a trip has a direction, or that it has none.
fn is_directed(trip: &Trip, directed: bool) -> bool
    ensures { result ≡ is_directed directed trip.now }
{
    trip.direction_id.is_some() == directed
}

// Whether the short name has more than 12 characters.
fn has_long_short_name(route: &Route) -> bool
    ensures { (ids : _) → result ≡ has_long_short_name (route_named ids route.now) }
{
    match &route.route_short_name {
        Some(name) => has_more_characters(12, name.as_str()),
        None => false,
    }
}

// Whether the long name begins with the short one, and there a word ends.
fn repeats_short_name(route: &Route) -> bool
    ensures { (ids : _) → result ≡ repeats_short_name (route_named ids route.now) }
{
    match (&route.route_short_name, &route.route_long_name) {
        (Some(short), Some(long)) => repeats(short.as_str(), long.as_str()),
        _ => false,
    }
}

// Whether the text colour is hard to read on the route's colour.
fn has_close_colours(route: &Route) -> bool
    ensures { (ids : _) → result ≡ has_close_colours (route_named ids route.now) }
{
    let colour = brightness(route.route_color);
    let text = brightness(route.route_text_color);
    7 * colour.abs_diff(text) < 510_000
}

// A thousand times the brightness of a colour, from 0 to 255,000.
fn brightness(colour: Colour) -> u32
    ensures value { result ≡ brightness colour }
    ensures bound { result ≤ 255_000 }
{
    let bits = colour.bits();
    299 * (bits / 0x1_0000) + 587 * (bits / 0x100 % 0x100) + 114 * (bits % 0x100)
}

// Whether one of its names has letters that were read in another encoding.
fn is_garbled_route(route: &Route) -> bool
    ensures { (ids : _) → result ≡ is_garbled_route (route_named ids route.now) }
{
    is_garbled_if_given(&route.route_short_name) || is_garbled_if_given(&route.route_long_name)
}
