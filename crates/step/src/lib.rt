// One instruction at a fixed pc, either way: what it would do, or why it is refused; and the lent
// words that it reads and writes.
#![tactic(auto)]

ghost use Rattle.std.specs.Prelude.{◌≡◌, get_or, take};
ghost use Rattle.step.specs.Table.{link, paired};
ghost use Rattle.step.specs.View.{sized, with_node, with_nodes, links_in, words_in};

pub mod lent;
pub mod operation;
pub mod perform;
pub mod reverse;
pub mod sizes;
pub mod table;

use table::Nodes;
use word::refusals::Refusal;

// The record beside its registers: the node qifv, the wait count qifw and the sizes.
#[derive(Clone, Copy)]
pub struct Status {
    pub qifv: u32,
    pub qifw: u32,
    pub k: u32,
    pub m: u32,
    pub n: u32,
}

impl Status {
    // Of these sizes, at no node and with no wait.
    pub fn sized(k: u32, m: u32, n: u32) -> Status
        ensures { result ≡ sized k m n }
    {
        Status {
            qifv: 0,
            qifw: 0,
            k,
            m,
            n,
        }
    }

    // At another node, with another wait count.
    pub fn with_node(self, u: u32, j: u32) -> Status
        ensures { result ≡ with_node self u j }
    {
        Status {
            qifv: u,
            qifw: j,
            ..self
        }
    }

    // With a table of another n nodes.
    pub fn with_nodes(self, n: u32) -> Status
        ensures { result ≡ with_nodes self n }
    {
        Status { n, ..self }
    }
}

#[derive(Clone, Copy, PartialEq, Eq)]
pub enum Direction {
    Forward,
    Back,
}

// What an instruction does with a memory word: it only reads the word, or exchanges it with a register.
#[derive(Clone, Copy)]
pub enum Access {
    Copy,
    Exchange,
}

// What an instruction does, with its operands read.
#[derive(Clone, Copy)]
pub enum Effect {
    Nothing,
    // a register gets a word, or two do
    Write(usize, u32),
    WriteTwo(usize, u32, usize, u32),
    // a register is exchanged with the word at an address
    SwapWord(usize, u32),
    // the node and the wait count are set
    SetNode(u32, u32),
}

// The memory word that an effect stores.
#[derive(Clone, Copy, PartialEq, Eq)]
pub struct Store {
    pub address: u32,
    pub value: u32,
}

// What a word would do, or why it is refused.
pub type Attempt = Result<Effect, Refusal>;

// What a word sees: the status, and the registers, the memory and the table that are lent.
#[derive(Clone, Copy)]
pub struct Seen<'a> {
    pub at: Status,
    pub regs: &'a [u32],
    pub mem: &'a [u32],
    pub table: &'a [u32],
}

impl<'a> Seen<'a> {
    pub fn reg(self, a: usize) -> u32
        ensures { result ≡ get_or self.entry.regs.now a 0 }
    {
        lent::look(self.regs, a)
    }

    pub fn word(self, i: u32) -> u32
        ensures { result ≡ get_or (take self.entry.at.m self.entry.mem.now) i 0 }
    {
        lent::look(lent::front(self.mem, self.at.m), i as usize)
    }

    fn nodes(self) -> Nodes<'a>
        ensures words { words_in result ≡ links_in self.entry }
        ensures count { result.n ≡ self.entry.at.n }
    {
        Nodes {
            words: self.table,
            n: self.at.n,
        }
    }

    // Word j of node v, 0 where v is none.
    pub fn link(self, v: u32, j: usize) -> u32
        ensures { result ≡ link (links_in self.entry) self.entry.at.n v j }
    {
        self.nodes().link(v, j)
    }

    // Link f of v leads to u, and link g of u back to v.
    pub fn is_paired(self, v: u32, f: usize, u: u32, g: usize) -> bool
        ensures { result ≡ paired (links_in self.entry) self.entry.at.n v f u g }
    {
        self.nodes().is_paired(v, f, u, g)
    }
}
