//! Values of options that several commands have.
mod moments;
mod times;

pub(crate) use crate::commands::options::moments::{GivenMoment, read_day_if_given, read_moment};
pub(crate) use crate::commands::options::times::read_times;
