ghost use Rattle.std.specs.Prelude.{◌≡◌, ◌<◌, ◌≤◌, length};
ghost use Rattle.gtfs_nearby.specs.AreaTree.{IsBlock, block_joined, block_of_one};

use crate::area::Area;
use crate::listed::Listed;
use crate::run::Run;

// What a search asks of stops that are listed one after the other:
// where they are, and the least of their numbers.
#[derive(Clone, Copy)]
pub(crate) struct Block {
    pub area: Area,
    pub least: usize,
}

impl Block {
    pub fn of(listed: &[Listed<'_>], stops: Run) -> Block
        requires some { stops.from < stops.until }
        requires within { stops.until ≤ length listed.now }
        ensures { IsBlock listed.now stops result }
    {
        let mut block = Block::of_one(&listed[stops.from]);
        for number in stops.from + 1..stops.until {
            block = block.joined(&Block::of_one(&listed[number]));
        }
        block
    }

    fn of_one(listed: &Listed<'_>) -> Block
        ensures { result ≡ block_of_one listed.now }
    {
        Block {
            area: Area::of(&listed.place),
            least: listed.number,
        }
    }

    // The block of the stops of both.
    pub fn joined(&self, other: &Block) -> Block
        ensures { result ≡ block_joined self.now other.now }
    {
        Block {
            area: self.area.joined(&other.area),
            least: self.least.min(other.least),
        }
    }
}
