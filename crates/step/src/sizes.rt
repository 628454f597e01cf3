// The sizes K, M and N, their limits, and what is lent for them.
ghost use Rattle.std.specs.Prelude.{◌≡◌, length, take};
ghost use Rattle.step.specs.View.{nodes};
ghost use Rattle.step.specs.Sizes.{in_range, is_enough, bad_sizes};

use crate::Status;
use crate::table::{NODE_WORDS, table_words};

// The most that M and N may be.
pub const MAX_WORDS: u32 = 8192;

pub const MAX_NODES: u32 = 511;

// The words of a table of so many nodes.
pub const MAX_LINKS: usize = NODE_WORDS * (MAX_NODES as usize);

impl Status {
    #[tactic(auto, unfolding(crate::specs::Sizes::in_range))]
    pub fn is_in_range(self) -> bool
        ensures { result ≡ in_range self }
    {
        0 < self.k && self.k <= self.m && self.m <= MAX_WORDS && self.n <= MAX_NODES
    }

    pub fn is_enough(self, mem: &[u32], table: &[u32]) -> bool
        ensures { result ≡ is_enough self (length mem.now) (length table.now) }
    {
        self.m as usize <= mem.len() && table_words(self.n) <= table.len()
    }

    #[tactic(auto, unfolding(crate::specs::Sizes::bad_sizes))]
    pub fn has_bad_sizes(self, mem: &[u32], table: &[u32]) -> bool
        ensures { result ≡ bad_sizes self (take self.m mem.now) (nodes self table.now) }
    {
        if !self.is_in_range() {
            return true;
        }
        !self.is_enough(mem, table)
    }
}
