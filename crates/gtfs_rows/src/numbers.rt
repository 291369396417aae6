/// The number of an agency:
/// the rank of its id among the ids of all agencies of the feed, by bytes, from 0.
#[derive(Clone, Copy, Debug, PartialEq, Eq, PartialOrd, Ord)]
pub struct AgencyNo(pub usize);

/// The number of a route:
/// the rank of its id among the ids of all routes of the feed, by bytes, from 0.
#[derive(Clone, Copy, Debug, PartialEq, Eq, PartialOrd, Ord)]
pub struct RouteNo(pub usize);

/// The number of a service:
/// the rank of its id among the ids of all services of the feed, by bytes, from 0.
#[derive(Clone, Copy, Debug, PartialEq, Eq, PartialOrd, Ord)]
pub struct ServiceNo(pub usize);

/// The number of a trip: the rank of its id among the ids of all trips of the feed, by bytes, from 0.
#[derive(Clone, Copy, Debug, PartialEq, Eq, PartialOrd, Ord)]
pub struct TripNo(pub usize);
