ghost use Rattle.std.specs.Prelude.{◌≡◌, ◌==◌, ◌<◌, not, IfOk, OnOk, length};
ghost use Rattle.std.specs.List.{All, list_any};
ghost use Rattle.gtfs_rows.specs.Content.{Content};
ghost use Rattle.gtfs_rows.specs.RowsInMemory.{IsSoundParts, agency_of, content_of_parts};
ghost use Rattle.gtfs_advice.specs.Advice.{Tells, agency_advice, agency_rules, answers_of};
ghost use Rattle.gtfs_advice.specs.Agencies.{has_no_route};
ghost use Rattle.gtfs_advice.specs.NumberMarks.{AreMarks};

use crate::advice::{Advice, Subject, tell};
use crate::code::Code;
use crate::text_faults::{is_garbled, lacks_scheme};
use gtfs_feed::Feed;
use gtfs_field::OutOfMemory;
use gtfs_rows::{Agency, AgencyNo, Parts, Route};
use std::alloc::Global;

// Tells the advice on agencies.
pub(crate) fn tell_agencies(
    alloc: Global,
    feed: &Feed,
    told: &mut Vec<Advice>,
) -> Result<(), OutOfMemory>
    ensures { OnOk result (Tells feed.now (agency_advice (content_of_parts feed.now))
        told.old.items told.new.items) }
{
    let parts = feed.parts();
    let marks = with_routes(alloc, parts.agencies.len(), parts.routes.as_slice())?;
    tell_each(parts, &marks, told)
}

// The same of each agency, where its mark says whether a route is of it.
fn tell_each(parts: &Parts, marks: &[bool], told: &mut Vec<Advice>) -> Result<(), OutOfMemory>
    requires sound { IsSoundParts parts.now }
    requires marks { AreMarks (length parts.now.agencies)
        (λ k. list_any (λ r. r.agency_id.0 == k) parts.now.routes) marks.now }
    ensures { OnOk result (Tells parts.now (agency_advice (content_of_parts parts.now))
        told.old.items told.new.items) }
{
    for (number, agency) in parts.agencies.as_slice().iter().enumerate() {
        let answers = answers(agency, marks[number]);
        tell(told, &Subject::Agency(AgencyNo(number)), &answers)?;
    }
    Ok(())
}

// Whether each rule holds of an agency.
fn answers(agency: &Agency, has_route: bool) -> [(Code, bool); 3]
    ensures { (c : Content) → has_no_route c (agency_of agency.now) ≡ not has_route
        → result ≡ answers_of (agency_rules c) (agency_of agency.now) }
{
    [
        (Code::AgencyWithoutRoute, !has_route),
        (
            Code::AddressWithoutScheme,
            lacks_scheme(agency.agency_url.as_str()),
        ),
        (Code::GarbledAgency, is_garbled(agency.agency_name.as_str())),
    ]
}

// Of each of so many agencies, by its number, whether a route is of it.
fn with_routes(alloc: Global, count: usize, routes: &[Route]) -> Result<Vec<bool>, OutOfMemory>
    requires { All (λ r. r.agency_id.0 < count) routes.now }
    ensures { IfOk result (λ marks. AreMarks count
        (λ k. list_any (λ r. r.agency_id.0 == k) routes.now) marks.items) }
{
    let mut marks = vec![in alloc; false; count]?;
    for route in routes {
        marks[route.agency_id.0] = true;
    }
    Ok(marks)
}
