//! The commands, each with the texts that were given to it.

/// What the words ask for. The texts are the words' own and not yet judged.
#[derive(Clone, Copy)]
pub enum Command<'w> {
    /// `gtfs check`: what is wrong with the feed in this folder.
    Check(CheckTexts<'w>),
    /// `gtfs board`: the departures at a stop.
    Board(BoardTexts<'w>),
    /// `gtfs boards`: the departures that each line of a file asks for.
    Boards(BoardsTexts<'w>),
    /// `gtfs serve`: an answer to each request, as it comes in.
    Serve(ServeTexts<'w>),
    /// `gtfs timetable`: the runs of a route on a date.
    Timetable(TimetableTexts<'w>),
    /// `gtfs merge`: one feed of two.
    Merge(MergeTexts<'w>),
}

/// What was given to `gtfs check`:
/// each text as it stands in the words, and whether each flag stands there.
#[derive(Clone, Copy)]
pub struct CheckTexts<'w> {
    /// The folder of the feed.
    pub dir: &'w str,
    /// Whether the line of a problem has the value that is wrong.
    pub values: bool,
    /// Whether problems that are alike have one line, with their number.
    pub summary: bool,
    /// Whether a feed without errors gets advice.
    pub advise: bool,
    /// The service day from which on there is to be service, if one was said.
    pub day: Option<&'w str>,
}

/// What was given to `gtfs board`:
/// each text as it stands in the words, and whether the flag stands there.
#[derive(Clone, Copy)]
pub struct BoardTexts<'w> {
    /// The folder of the feed.
    pub dir: &'w str,
    /// The file of the time zone.
    pub zone: &'w str,
    /// The `stop_id` of the stop.
    pub stop: &'w str,
    /// Where the board begins: `@` and an instant, or a service date.
    pub from: &'w str,
    /// The instant before which the board ends, written like `from`.
    pub until: &'w str,
    /// How many lines are printed at most, if this was said.
    pub limit: Option<&'w str>,
    /// The key after which the board begins, if one was given.
    pub after: Option<&'w str>,
    /// Whether stop times without times of their own get times between those that have them.
    pub interpolate: bool,
}

/// What was given to `gtfs boards`:
/// each text as it stands in the words, and whether the flag stands there.
#[derive(Clone, Copy)]
pub struct BoardsTexts<'w> {
    /// The folder of the feed.
    pub dir: &'w str,
    /// The file of the time zone.
    pub zone: &'w str,
    /// The file of the requests, one a line.
    pub requests: &'w str,
    /// Whether stop times without times of their own get times between those that have them.
    pub interpolate: bool,
}

/// What was given to `gtfs serve`:
/// each text as it stands in the words, and whether the flag stands there.
#[derive(Clone, Copy)]
pub struct ServeTexts<'w> {
    /// The folder of the feed.
    pub dir: &'w str,
    /// The file of the time zone.
    pub zone: &'w str,
    /// Whether stop times without times of their own get times between those that have them.
    pub interpolate: bool,
}

/// What was given to `gtfs timetable`:
/// each text as it stands in the words, and whether the flag stands there.
#[derive(Clone, Copy)]
pub struct TimetableTexts<'w> {
    /// The folder of the feed.
    pub dir: &'w str,
    /// The `route_id` of the route.
    pub route: &'w str,
    /// The date.
    pub date: &'w str,
    /// The `direction_id` of the trips, if only one direction is wanted.
    pub direction: Option<&'w str>,
    /// Whether stop times without times of their own get times between those that have them.
    pub interpolate: bool,
}

/// What was given to `gtfs merge`, each a text as it stands in the words.
#[derive(Clone, Copy)]
pub struct MergeTexts<'w> {
    /// The folder of the feed whose ids stay.
    pub a: &'w str,
    /// The folder of the feed that is added.
    pub b: &'w str,
    /// The folder that the merged feed is written into.
    pub out: &'w str,
    /// Up to how many millionths of a degree apart stops become one, if this was said.
    pub near: Option<&'w str>,
    /// The service day from which the second feed counts, if one was said.
    pub cutoff: Option<&'w str>,
}
