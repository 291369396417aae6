pub(crate) mod counts;
pub(crate) mod judge;
pub(crate) mod notes;
pub(crate) mod numbers;
pub(crate) mod order;
pub(crate) mod row_counts;
