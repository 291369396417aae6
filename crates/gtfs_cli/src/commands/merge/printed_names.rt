ghost use Rattle.std.specs.Prelude.{Some, flat_map, length};
ghost use Rattle.gtfs_merge.specs.NearStops.{near_line};
ghost use Rattle.gtfs_merge.specs.MergeReport.{kinds};
ghost use Rattle.gtfs_cli.specs.MergeReport.{both_lines, count_line, ids_report, line_text, named_line, names_report, side_lines};
ghost use Rattle.gtfs_cli.specs.SentText.{IsSent};

use crate::commands::refusal::Refusal;
use crate::commands::send::send;
use crate::devices_seen::OutSeen;
use crate::report::MergeLine;
use gtfs_merge::{Kind, Names, Side};
use gtfs_table::Out;
use std::alloc::Global;

// Prints what the ids of two feeds became, how many are joined and, if this was asked for, how many
// stops are near, each line sent out whole before the next is made.
// Errors: `OutputFailed` at any line, and `OutOfMemory` at any point.
pub(crate) fn print_names<'w, O: Out>(
    alloc: Global,
    names: &Names,
    near: Option<u32>,
    out: &mut O,
) -> Result<(), Refusal<'w>>
    ensures sent { IsSent (names_report near names.now) (⟦<O as OutSeen>⟧.seen out.old)
        (⟦<O as OutSeen>⟧.seen out.new) result }
{
    let mut text = String::new(alloc);
    print_ids(names, &mut text, out)?;
    print_near(names, near, &mut text, out)
}

// The lines of the ids that change, and those of how many are joined.
fn print_ids<'w, O: Out>(names: &Names, text: &mut String, out: &mut O) -> Result<(), Refusal<'w>>
    ensures sent { IsSent (ids_report names.now) (⟦<O as OutSeen>⟧.seen out.old)
        (⟦<O as OutSeen>⟧.seen out.new) result }
{
    print_renamed(names, text, out)?;
    print_joined(names, text, out)
}

// The lines of the ids that change, one kind after another.
fn print_renamed<'w, O: Out>(
    names: &Names,
    text: &mut String,
    out: &mut O,
) -> Result<(), Refusal<'w>>
    ensures sent { IsSent (flat_map (both_lines names.now) kinds) (⟦<O as OutSeen>⟧.seen out.old)
        (⟦<O as OutSeen>⟧.seen out.new) result }
{
    for kind in &Kind::ALL {
        print_kind(names, *kind, text, out)?;
    }
    Ok(())
}

// Those of a kind.
fn print_kind<'w, O: Out>(
    names: &Names,
    kind: Kind,
    text: &mut String,
    out: &mut O,
) -> Result<(), Refusal<'w>>
    ensures sent { IsSent (both_lines names.now kind) (⟦<O as OutSeen>⟧.seen out.old)
        (⟦<O as OutSeen>⟧.seen out.new) result }
{
    print_side(names, Side::A, kind, text, out)?;
    print_side(names, Side::B, kind, text, out)
}

// Those of a side.
fn print_side<'w, O: Out>(
    names: &Names,
    side: Side,
    kind: Kind,
    text: &mut String,
    out: &mut O,
) -> Result<(), Refusal<'w>>
    ensures sent { IsSent (side_lines names.now side kind) (⟦<O as OutSeen>⟧.seen out.old)
        (⟦<O as OutSeen>⟧.seen out.new) result }
{
    let ids = names.ids(side, kind);
    for (number, id) in ids.iter().enumerate() {
        let name = names.by_number(side, kind, number);
        print_id(side, kind, id.as_str(), name, text, out)?;
    }
    Ok(())
}

// The line of an id that became this name, if it changes.
fn print_id<'w, O: Out>(
    side: Side,
    kind: Kind,
    id: &str,
    name: &str,
    text: &mut String,
    out: &mut O,
) -> Result<(), Refusal<'w>>
    ensures sent { IsSent (named_line side kind id.now (Some name.now))
        (⟦<O as OutSeen>⟧.seen out.old) (⟦<O as OutSeen>⟧.seen out.new) result }
{
    if name == id {
        return Ok(());
    }
    let line = MergeLine::Renamed {
        side,
        kind,
        old: id,
        new: name,
    };
    print_line(line, text, out)
}

// The lines of how many ids are joined, one kind after another.
fn print_joined<'w, O: Out>(
    names: &Names,
    text: &mut String,
    out: &mut O,
) -> Result<(), Refusal<'w>>
    ensures sent { IsSent (flat_map (count_line names.now) kinds) (⟦<O as OutSeen>⟧.seen out.old)
        (⟦<O as OutSeen>⟧.seen out.new) result }
{
    for kind in &Kind::ALL {
        let count = names.joined(*kind).len();
        print_line(MergeLine::Joined { kind: *kind, count }, text, out)?;
    }
    Ok(())
}

// The line of how many stops are near, if it was asked for.
fn print_near<'w, O: Out>(
    names: &Names,
    near: Option<u32>,
    text: &mut String,
    out: &mut O,
) -> Result<(), Refusal<'w>>
    ensures sent { IsSent (near_line near (length names.now.near)) (⟦<O as OutSeen>⟧.seen out.old)
        (⟦<O as OutSeen>⟧.seen out.new) result }
{
    let Some(_) = near else {
        return Ok(());
    };
    let count = names.near().len();
    print_line(MergeLine::Near { count }, text, out)
}

// Sends a line out. It is made in a text that was used before.
fn print_line<'w, O: Out>(
    line: MergeLine<'_>,
    text: &mut String,
    out: &mut O,
) -> Result<(), Refusal<'w>>
    ensures sent { IsSent (line_text line.entry) (⟦<O as OutSeen>⟧.seen out.old)
        (⟦<O as OutSeen>⟧.seen out.new) result }
{
    text.clear();
    line.push(text)?;
    send(text.as_bytes(), out)
}
