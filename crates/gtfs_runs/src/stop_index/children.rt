ghost use Rattle.std.specs.Prelude.{◌≡◌, ◌<◌, ◌≤◌, ◌+◌, ◌==◌, ◌&&◌, ℕ, IfOk, OnOk, cond, filter, length, option_map};
ghost use Rattle.std.specs.List.Sorted.{IsSorted};
ghost use Rattle.gtfs_schema.specs.FieldValues.{if_there};
ghost use Rattle.gtfs_runs.specs.Tallies.{tally};
ghost use Rattle.gtfs_runs.specs.steps.Children.{AreChildren, below_parent, child_cmp, is_child, is_pair};

use gtfs_feed::Feed;
use gtfs_field::OutOfMemory;
use gtfs_rows::StopNo;
use gtfs_stop_times::small_number;
use std::alloc::Global;
use std::marker::Model;

// A stop or platform with a parent, by their numbers. The order of the fields is that of children.
#[derive(Clone, Copy, PartialEq, Eq, PartialOrd, Ord)]
pub(crate) struct Child {
    parent: u32,
    stop: u32,
}

impl Child {
    // The stop or platform.
    pub(crate) fn stop(&self) -> StopNo
        ensures { result.0 ≡ self.now.stop }
    {
        StopNo(self.stop as usize)
    }
}

// The stops and platforms of a feed that have a parent, by parent.
//
// GTFS Schedule Reference, stops.txt, location_type and parent_station.
#[derive(Drop)]
pub(crate) struct Children {
    by_parent: Vec<Child>,
}

impl Model for Children {
    ghost use Rattle.std.specs.Prelude.{List};
    ghost use Rattle.gtfs_runs.specs.declared.stop_index.children.Child.{Child as ChildValue};

    ghost Value = { List ChildValue };

    ghost view = { λ x. x.by_parent.items };
}

impl Children {
    // Those of a feed.
    pub(crate) fn build(alloc: Global, feed: &Feed) -> Result<Children, OutOfMemory>
        ensures { IfOk result (λ children. AreChildren feed.now children) }
    {
        let mut by_parent = gathered(alloc, feed)?;
        by_parent.sort_unstable();
        Ok(Children { by_parent })
    }

    // Those of a stop, one of so many.
    pub(crate) fn of(&self, stop: StopNo, stops: usize) -> &[Child]
        requires stop { stop.0 < stops }
        requires sorted { IsSorted child_cmp self.now }
        ensures { result.now ≡ filter (λ x. x.parent == stop.0) self.now }
    {
        let children = self.by_parent.as_slice();
        let from = start_of(children, stop.0);
        let to = start_of(children, stop.0 + 1);
        &children[from..to]
    }
}

// How many have a parent with a lower number than this.
fn start_of(children: &[Child], stop: usize) -> usize
    requires { IsSorted child_cmp children.now }
    ensures value { result ≡ below_parent children.now stop }
    ensures upto { result ≤ length children.now }
{
    children.partition_point(|child| (child.parent as usize) < stop)
}

// The children, by their own numbers.
fn gathered(alloc: Global, feed: &Feed) -> Result<Vec<Child>, OutOfMemory>
    ensures { IfOk result (λ found. (s n : ℕ) → tally (is_pair s n) found.items
        ≡ cond (is_child feed.now s n) 1 0) }
{
    let mut found = Vec::new(alloc);
    for number in 0..feed.stop_count() {
        add_child(feed, StopNo(number), &mut found)?;
    }
    Ok(found)
}

// Adds a stop or platform, if it has a parent.
fn add_child(feed: &Feed, stop: StopNo, found: &mut Vec<Child>) -> Result<(), OutOfMemory>
    requires { stop.0 < length feed.now.stops }
    ensures { OnOk result ((s n : ℕ) → tally (is_pair s n) found.new.items
        ≡ tally (is_pair s n) found.old.items
        + cond ((n == stop.0) && is_child feed.now s n) 1 0) }
{
    let Some(parent) = parent_of(feed, stop) else {
        return Ok(());
    };
    let child = child_of(parent, stop)?;
    found.push(child)?;
    Ok(())
}

// A stop or platform under its parent.
fn child_of(parent: StopNo, stop: StopNo) -> Result<Child, OutOfMemory>
    ensures { IfOk result (λ child. child ≡ record { parent = parent.0; stop = stop.0 }) }
{
    Ok(Child {
        parent: small_number(parent.0)?,
        stop: small_number(stop.0)?,
    })
}

// The parent of a stop or platform, unless it is its own.
fn parent_of(feed: &Feed, stop: StopNo) -> Option<StopNo>
    requires { stop.0 < length feed.now.stops }
    ensures { (s : ℕ) → if_there (option_map (λ m. m.0) result) (λ m. s == m)
        ≡ is_child feed.now s stop.0 }
{
    let row = feed.stop_by_number(stop);
    let Some(parent) = row.parent_station else {
        return None;
    };
    if row.location_type.number() == 0 && parent.0 != stop.0 {
        Some(parent)
    } else {
        None
    }
}
