//! Datasets, feeds and zones that several crates of tests share.
//!
//! - [`FEED`] is a small dataset without a problem. [`folders_of`] makes folders of it and of
//!   changes to it, and [`feed_with`] feeds; [`read_feed`] makes the feed of any folder that
//!   passes, and [`read_by_draft`] makes it of a draft.
//! - [`made_feed`] makes feeds by throws of dice, and [`made_feed_with`] changes to them.
//! - [`Clocks`] are zones by what they do.
#![tactic(auto)]

mod clocks;
mod dataset;
mod made;

pub use clocks::Clocks;
pub use dataset::{FEED, FileText, feed_with, folders_of, read_by_draft, read_feed};
pub use made::{STOPS, made_feed, made_feed_with};
