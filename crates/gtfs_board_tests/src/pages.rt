//! Pages of every length, each opened above the last key of the one before.

use crate::assertions::{assert_holds, assert_is};
use crate::cases::Case;
use crate::opening::Opening;
use std::alloc::Global;
use std::process::Abort;
use std::test::Fail;

// No board of these tests has more pages.
const MOST: u64 = 10_000;

/// The key of the last of whole lines, or nothing where there is none.
pub(crate) fn last_key(lines: &str) -> &str {
    match lines.lines().last() {
        Some(line) => match line.split_once('\t') {
            Some((key, _)) => key,
            None => line,
        },
        None => "",
    }
}

// All pages of a board above the key of a text, one after the other.
fn joined(
    rt: &impl Abort,
    alloc: Global,
    opening: &Opening<'_>,
    after: &str,
    limit: u64,
) -> Result<String, Fail> {
    let mut text = String::new(alloc);
    let mut key = String::from_str(alloc, after)?;
    for _ in 0..MOST {
        let (count, lines) = opening.page(rt, alloc, key.as_str(), limit)?;
        let is_told = count <= limit && lines.lines().count() as u64 == count;
        assert_holds(rt, is_told, format_args!("{count} of {limit}"));
        text.push_str(lines.as_str())?;
        if count < limit || limit == 0 {
            break;
        }
        key.clear();
        key.push_str(last_key(lines.as_str()))?;
    }
    Ok(text)
}

/// The pages of each length are the lines of a worked board, and one of no lines is empty.
pub(crate) fn assert_joined(
    rt: &impl Abort,
    alloc: Global,
    opening: &Opening<'_>,
    case: &Case,
) -> Result<(), Fail> {
    for limit in 0..6 {
        let text = joined(rt, alloc, opening, case.after, limit)?;
        let wanted = if limit == 0 { "" } else { case.lines };
        let what = format_args!("{}, by {limit}", case.what);
        assert_is(rt, text.as_str(), wanted, what);
    }
    Ok(())
}
