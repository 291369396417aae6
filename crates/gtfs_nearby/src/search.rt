ghost use Rattle.std.specs.Prelude.{◌≡◌, ◌≤◌, ◌<◌, ◌-◌, IfSome, IfNone, length};
ghost use Rattle.gtfs_nearby.specs.AreaTree.{IsBlock, IsTree, shared};
ghost use Rattle.gtfs_nearby.specs.TreeSearch.{IsLeastOfRun};

use crate::area::Area;
use crate::listed::Listed;
use crate::run::Run;
use crate::tree::{LEAF, Node};

// The least number of a stop of the run inside the area, if it is below this number;
// else this number.
pub(crate) fn least_of_run(
    listed: &[Listed<'_>],
    tree: &[Node],
    run: Run,
    area: &Area,
    below: usize,
) -> usize
    requires tree { IsTree listed.now (length listed.now) tree.now }
    requires within { run.until ≤ length listed.now }
    ensures { IsLeastOfRun area.now listed.now run below result }
{
    // Few stops need no tree.
    if run.len() <= LEAF {
        return least_of_all(listed, run, area, below);
    }
    let mut least = below;
    // How many nodes are left. The last of them comes next.
    let mut left = tree.len();
    while left > 0 {
        let node = &tree[left - 1];
        if let Some(told) = least_of_node(listed, node, run, area, least) {
            least = told;
            left = node.first;
        } else {
            left -= 1;
        }
    }
    least
}

// The same of those stops of the run that are the node's. None if its parts have to be asked.
fn least_of_node(
    listed: &[Listed<'_>],
    node: &Node,
    run: Run,
    area: &Area,
    below: usize,
) -> Option<usize>
    requires block { IsBlock listed.now node.now.stops node.now.block }
    requires within { node.now.stops.until ≤ length listed.now }
    ensures told { IfSome result (λ least. IsLeastOfRun area.now listed.now (shared run node.now.stops) below least) }
    ensures parts { IfNone result (LEAF < node.now.stops.until - node.now.stops.from) }
{
    let stops = run.shared(node.stops);
    if stops.len() == 0 || below <= node.block.least || !area.meets(&node.block.area) {
        return Some(below);
    }
    // The stop with the least number is among them only if they are all stops of the node.
    if stops.len() == node.stops.len() && area.covers(&node.block.area) {
        return Some(node.block.least);
    }
    if node.stops.len() > LEAF {
        return None;
    }
    Some(least_of_all(listed, stops, area, below))
}

// The same of all stops of the run, by a look at each.
fn least_of_all(listed: &[Listed<'_>], run: Run, area: &Area, below: usize) -> usize
    requires { run.until ≤ length listed.now }
    ensures { IsLeastOfRun area.now listed.now run below result }
{
    let mut least = below;
    for number in run.from..run.until {
        let one = &listed[number];
        if one.number < least && area.has(&one.place) {
            least = one.number;
        }
    }
    least
}
