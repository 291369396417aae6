//! Merging two feeds of a region into one.
//!
//! - [`merge`] makes one [`Feed`](gtfs_feed::Feed) of two,
//!   and [`merge_owned`] of two that are given up.
//! - [`Kind`] names the kinds of ids, and [`Side`] the two feeds.
//! - [`Names`] tells what each id of either feed becomes, and which ids are joined.
//! - [`zones_differ`] tells whether two feeds cannot be merged,
//!   since their times are in different zones.
//! - [`merges_keep_departures`] states what a merge keeps: every departure of both feeds, and every
//!   board; [`cuts_keep_departures`] what a cutoff leaves of a feed.
//!
//! An id of the second feed stays where the first feed has no such id, or where both have the same
//! row under it: such an id is *joined*. Rows are compared once their references are renamed, so a
//! trip is joined with its stop times and its frequencies. Every other id of the second feed gets a
//! new name. With [`Options::near`] a stop of the second feed that lies close to one of the first,
//! and is alike, becomes that one. With [`Options::cutoff`] the first feed serves the days before a
//! service day, and the second those from it on. `specs/Renaming.antt` and `specs/NearStops.antt` say
//! which ids become what, `specs/Merged.antt` what the merged content is, `specs/Cutoff.antt` what
//! a cutoff leaves, and `specs/MergeReport.antt` what is told of a merge.
#![tactic(auto)]

mod comparing;
mod feed_ids;
mod joining;
mod kind;
mod law;
mod merging;
mod names;
mod numbering;
mod row_numbers;
mod rows;
mod sides;
mod zones;

pub use kind::{Kind, Side};
pub use law::{cuts_keep_departures, merges_keep_departures};
pub use merging::fault::MergeFault;
pub use merging::options::Options;
pub use merging::{Merged, merge, merge_owned};
pub use names::Names;
pub use zones::zones_differ;
