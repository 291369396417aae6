//! Texts of reports: of a check, a line for each problem and one with their counts, and of a merge,
//! a line for each id that changes, one for each kind, and one for near stops.
mod advice_line;
mod counts_line;
mod line_pieces;
mod merge_line;
mod problem_line;
mod problem_start;
mod problem_value;

pub(crate) use advice_line::{push_advice, push_advised};
pub(crate) use counts_line::push_counts;
pub(crate) use merge_line::MergeLine;
pub(crate) use problem_line::push_line;
