//! Which rows the merged feed has, in the order of their new ids, and the number that each gets.
pub(crate) mod all_kinds;
pub(crate) mod new_numbers;
pub(crate) mod one_kind;
pub(crate) mod sorted_rows;
