ghost use Rattle.std.specs.Prelude.{◌≡◌, ◌<◌, ◌≤◌, ◌+◌, IfOk, OnOk, length};
ghost use Rattle.gtfs_nearby.specs.AreaTree.{AreEven, IsJoinedIfAny, IsTree, node_joined};

use crate::block::Block;
use crate::listed::Listed;
use crate::run::Run;
use gtfs_field::OutOfMemory;
use std::alloc::Global;

// How many listed stops a leaf has; the last one may have fewer.
// The nodes of a tree then take less than 3 bytes for each stop.
pub(crate) const LEAF: usize = 48;

// Listed stops that stand one after the other, with their block. A node with more stops than a
// leaf has two parts, which stand before it: the second one right before it, and the first one
// before the nodes of the second.
#[derive(Clone, Copy)]
pub(crate) struct Node {
    pub block: Block,
    pub stops: Run,
    // The index of the first node inside this one, which is its own if it is a leaf.
    pub first: usize,
}

impl Node {
    // The node of which these are the parts.
    fn joined(&self, next: &Node) -> Node
        ensures { result ≡ node_joined self.now next.now }
    {
        Node {
            block: self.block.joined(&next.block),
            stops: Run {
                from: self.stops.from,
                until: next.stops.until,
            },
            first: self.first,
        }
    }
}

// The nodes of all listed stops.
pub(crate) fn tree_of(alloc: Global, listed: &[Listed<'_>]) -> Result<Vec<Node>, OutOfMemory>
    ensures { IfOk result (λ tree. IsTree listed.now (length listed.now) tree.items) }
{
    let count = listed.len().div_ceil(LEAF);
    let mut tree = Vec::with_capacity(alloc, 2 * count)?;
    for number in 0..count {
        let from = number * LEAF;
        let until = listed.len().min(from + LEAF);
        grow(&mut tree, listed, Run { from, until })?;
    }
    Ok(tree)
}

// Adds the leaf of these stops, and each node whose parts are then there.
fn grow(tree: &mut Vec<Node>, listed: &[Listed<'_>], stops: Run) -> Result<(), OutOfMemory>
    requires tree { IsTree listed.now stops.from tree.old.items }
    requires some { stops.from < stops.until }
    requires few { stops.until ≤ stops.from + LEAF }
    requires within { stops.until ≤ length listed.now }
    ensures tree { OnOk result (IsTree listed.now stops.until tree.new.items) }
    ensures joined { OnOk result (¬ AreEven tree.new.items) }
{
    tree.push(Node {
        block: Block::of(listed, stops),
        stops,
        first: tree.len(),
    })?;
    while let Some(node) = last_joined(tree) {
        tree.push(node)?;
    }
    Ok(())
}

// The last two nodes that are parts of no other, as one, if they have equally many stops. So the
// nodes of n stops are about log n deep, and about log n of them at most are parts of no other.
fn last_joined(tree: &[Node]) -> Option<Node>
    ensures { IsJoinedIfAny tree.now result }
{
    let next = tree.last()?;
    let node = tree.get(next.first.checked_sub(1)?)?;
    if node.stops.len() != next.stops.len() {
        return None;
    }
    Some(node.joined(next))
}
