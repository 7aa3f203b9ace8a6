//! The blocks of a track that are passed over at once.

ghost use Rattle.std.specs.Prelude.{◌≡◌, ◌+◌, ◌<◌, ◌≤◌, IfSome, List, Some};
ghost use Rattle.run_permute.specs.Tracks.{IsBeside, IsPast};
ghost use Rattle.run_permute.specs.declared.block.Block.{Block};

use crate::block::Block;
use crate::strand::is_beside;

/// So many blocks at the front, each of which has a `high`: none of their lows is below `low`, none of the highs above `high`. The last
/// block isn't among them, since it takes further steps. So a step looks at few blocks, however long the run is.
#[derive(Clone, Copy, Drop)]
pub struct Past {
    pub blocks: usize,
    low: u32,
    high: u32,
}

impl Past {
    /// None of the blocks yet.
    pub fn none() -> Past
        ensures { (blocks : List Block) → IsPast result blocks }
    {
        Past {
            blocks: 0,
            low: u32::MAX,
            high: 0,
        }
    }

    /// How many blocks are passed over where so many of the chain are ordered before a step: all of these, or none.
    pub fn passed(self, end: usize) -> usize
        ensures within { result ≤ self.blocks }
        ensures beside { 0 < result → IsBeside self.low (Some self.high) end → ⊥ }
    {
        if is_beside(self.low, Some(self.high), end) {
            return 0;
        }
        self.blocks
    }

    /// These, and the next block where it has a `high` and isn't the last.
    fn next(self, blocks: &[Block]) -> Option<Past>
        requires { IsPast self blocks.now }
        ensures past { IfSome result (λ next. IsPast next blocks.now) }
        ensures more { IfSome result (λ next. next.blocks ≡ self.blocks + 1) }
    {
        if self.blocks + 1 >= blocks.len() {
            return None;
        }
        let block = &blocks[self.blocks];
        let high = block.high()?;
        Some(Past {
            blocks: self.blocks + 1,
            low: self.low.min(block.low()),
            high: self.high.max(high),
        })
    }

    /// These, and the next blocks as long as they have a `high`, up to the last. In a whole run each is gone over once.
    pub fn advanced(self, blocks: &[Block]) -> Past
        requires { IsPast self blocks.now }
        ensures { IsPast result blocks.now }
    {
        let mut past = self;
        while let Some(next) = past.next(blocks) {
            past = next;
        }
        past
    }
}
