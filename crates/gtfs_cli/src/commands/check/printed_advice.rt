//! The lines of advice, which a check prints.
ghost use Rattle.std.specs.Prelude.{◌≡◌, ◌==◌, ◌<◌, ◌∷◌, [], All, false, true, if◌then◌else◌, map, count_by, slice_index_or, slice_set, length, None, Some, IfOk};
ghost use Rattle.gtfs_rows.specs.RowsInMemory.{content_of_parts};
ghost use Rattle.gtfs_advice.specs.Advice.{advice, advice_of, IsWithin};
ghost use Rattle.gtfs_cli.specs.AdviceLines.{advice_line, advice_lines, has_one_code};
ghost use Rattle.gtfs_advice.specs.Codes.{advice_rank};
ghost use Rattle.gtfs_cli.specs.FirstOfEachKind.{firsts, if_counted};
ghost use Rattle.gtfs_cli.specs.SentText.{AreSent};

use crate::commands::refusal::Refusal;
use crate::commands::send::send;
use crate::devices_seen::OutSeen;
use crate::report::push_advice;
use gtfs_advice::{Advice, Code, advise};
use gtfs_board::Feed;
use gtfs_field::Day;
use gtfs_table::Out;
use std::alloc::Global;

// Prints the advice on a feed, each line sent out whole before the next is made. Answers how much
// advice there is.
// Errors: `OutputFailed` at any line, and `OutOfMemory` at any point.
pub(crate) fn print_advice<'w, O: Out>(
    alloc: Global,
    line: &mut String,
    summary: bool,
    feed: &Feed,
    day: Option<Day>,
    out: &mut O,
) -> Result<usize, Refusal<'w>>
    ensures sent { AreSent (advice_lines summary (advice (content_of_parts feed.now) day))
        (⟦<O as OutSeen>⟧.seen out.old) (⟦<O as OutSeen>⟧.seen out.new) result }
    ensures count { IfOk result (λ count. count
        ≡ length (advice (content_of_parts feed.now) day)) }
{
    let advice = advise(alloc, feed, day)?;
    print_lines(alloc, line, summary, feed, advice.as_slice(), out)?;
    Ok(advice.len())
}

// Prints a line for each advice, or for the first of each code.
fn print_lines<'w, O: Out>(
    alloc: Global,
    line: &mut String,
    summary: bool,
    feed: &Feed,
    advice: &[Advice],
    out: &mut O,
) -> Result<(), Refusal<'w>>
    requires { All (λ a. IsWithin feed.now a.subject) advice.now }
    ensures { AreSent (advice_lines summary (map (advice_of feed.now) advice.now))
        (⟦<O as OutSeen>⟧.seen out.old) (⟦<O as OutSeen>⟧.seen out.new) result }
{
    if summary {
        print_firsts(alloc, line, feed, advice, out)
    } else {
        print_each(alloc, line, feed, advice, out)
    }
}

fn print_each<'w, O: Out>(
    alloc: Global,
    line: &mut String,
    feed: &Feed,
    advice: &[Advice],
    out: &mut O,
) -> Result<(), Refusal<'w>>
    requires { All (λ a. IsWithin feed.now a.subject) advice.now }
    ensures { AreSent (map (λ a. advice_line a None) (map (advice_of feed.now) advice.now))
        (⟦<O as OutSeen>⟧.seen out.old) (⟦<O as OutSeen>⟧.seen out.new) result }
{
    for one in advice {
        print_line(alloc, line, feed, one, None, out)?;
    }
    Ok(())
}

// Prints the first advice of each code, with how many there are of it.
fn print_firsts<'w, O: Out>(
    alloc: Global,
    line: &mut String,
    feed: &Feed,
    advice: &[Advice],
    out: &mut O,
) -> Result<(), Refusal<'w>>
    requires { All (λ a. IsWithin feed.now a.subject) advice.now }
    ensures { AreSent (firsts has_one_code advice_line (map (advice_of feed.now) advice.now))
        (⟦<O as OutSeen>⟧.seen out.old) (⟦<O as OutSeen>⟧.seen out.new) result }
{
    let mut told = [false; Code::COUNT];
    for one in advice {
        let count = count_if_first(&mut told, advice, one.code.rank());
        print_first(alloc, line, feed, one, count, out)?;
    }
    Ok(())
}

// How many there are of the code of a rank, where it was not told before. It is told now.
fn count_if_first(told: &mut [bool; Code::COUNT], advice: &[Advice], rank: usize) -> Option<usize>
    requires { rank < 28 }
    ensures count { result ≡ (if slice_index_or told.old rank false then None
        else Some (count_by (λ a. rank == advice_rank a.code) advice.now)) }
    ensures told { told.new ≡ slice_set told.old rank true }
{
    if told[rank] {
        return None;
    }
    told[rank] = true;
    Some(advice.iter().filter(|a| rank == a.code.rank()).count())
}

fn print_first<'w, O: Out>(
    alloc: Global,
    line: &mut String,
    feed: &Feed,
    one: &Advice,
    count: Option<usize>,
    out: &mut O,
) -> Result<(), Refusal<'w>>
    requires { IsWithin feed.now one.now.subject }
    ensures { AreSent (if_counted (advice_line (advice_of feed.now one.now)) count ∷ [])
        (⟦<O as OutSeen>⟧.seen out.old) (⟦<O as OutSeen>⟧.seen out.new) result }
{
    if count.is_none() {
        return Ok(());
    }
    print_line(alloc, line, feed, one, count, out)
}

// Sends the line of an advice out. It is made in a text that was used before.
fn print_line<'w, O: Out>(
    alloc: Global,
    line: &mut String,
    feed: &Feed,
    one: &Advice,
    count: Option<usize>,
    out: &mut O,
) -> Result<(), Refusal<'w>>
    requires { IsWithin feed.now one.now.subject }
    ensures { AreSent (advice_line (advice_of feed.now one.now) count ∷ [])
        (⟦<O as OutSeen>⟧.seen out.old) (⟦<O as OutSeen>⟧.seen out.new) result }
{
    line.clear();
    push_advice(alloc, line, feed, one, count)?;
    send(line.as_bytes(), out)
}
