// Links of the qif table.
ghost use Rattle.std.specs.Prelude.{◌≡◌};
ghost use Rattle.step.specs.Table.{table_words, fc, lc, is_node, link, paired};
ghost use Rattle.step.specs.View.{words_in};

use crate::lent::look;

// The words of a node, by their index: fc0 fc1 lc0 lc1 cf cl nx pr w. Numbers, as in the table that C lends: the coin is added
// to that of fc0 or lc0, and an enum would be made a number again at once.
pub const NODE_WORDS: usize = 9;

pub const CF: usize = 4;

pub const CL: usize = 5;

pub const NX: usize = 6;

pub const PR: usize = 7;

pub const W: usize = 8;

// The words of n nodes.
pub fn table_words(n: u32) -> usize
    ensures { result ≡ table_words n }
{
    NODE_WORDS * (n as usize)
}

// The first and the last child for coin x.
pub fn first_child(x: u32) -> usize
    ensures { result ≡ fc x }
{
    x as usize
}

pub fn last_child(x: u32) -> usize
    ensures { result ≡ lc x }
{
    2 + x as usize
}

// The table of n nodes: its first 9 n lent words, and 0 for those that are not lent.
#[derive(Clone, Copy)]
pub struct Nodes<'a> {
    pub words: &'a [u32],
    pub n: u32,
}

impl Nodes<'_> {
    pub fn has(self, v: u32) -> bool
        ensures { result ≡ is_node self.entry.n v }
    {
        0 < v && v <= self.n
    }

    // Word j of node v, 0 where v is none.
    #[tactic(auto, unfolding(crate::specs::Table::link))]
    pub fn link(self, v: u32, j: usize) -> u32
        ensures { result ≡ link (words_in self.entry) self.entry.n v j }
    {
        if !self.has(v) {
            return 0;
        }
        let top = table_words(self.n).min(self.words.len());
        let node = table_words(v - 1).min(top);
        look(&self.words[node..top], j)
    }

    // Link f of v leads to u, and link g of u back to v.
    #[tactic(auto, unfolding(crate::specs::Table::paired))]
    pub fn is_paired(self, v: u32, f: usize, u: u32, g: usize) -> bool
        ensures { result ≡ paired (words_in self.entry) self.entry.n v f u g }
    {
        self.has(v) && self.has(u) && self.link(v, f) == u && self.link(u, g) == v
    }
}
