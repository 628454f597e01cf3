// Effects performed: on the status, on the lent registers and on the lent memory.
ghost use Rattle.std.specs.Prelude.{◌≡◌, ◌&&◌, eqb, ltb, length, get_or, set, take};
ghost use Rattle.word.specs.Word.{pick};
ghost use Rattle.step.specs.Step.{written, store_of, stored, marked};

use crate::lent::{look, put};
use crate::{Effect, Seen, Status, Store};

// v where register a is set, and is register j, which there is; else x.
fn if_set(regs: &[u32], a: usize, v: u32, j: usize, x: u32) -> u32
    ensures { result ≡ pick (eqb a j && ltb j (length regs.now)) v x }
{
    if a == j && j < regs.len() { v } else { x }
}

impl Effect {
    // Register j as the effect would leave it.
    pub fn register(self, s: Seen<'_>, j: usize) -> u32
        ensures { result ≡ get_or (written self s.entry.regs.now (take s.entry.at.m s.entry.mem.now)) j 0 }
    {
        let x = s.reg(j);
        match self {
            Effect::Write(a, v) => if_set(s.regs, a, v, j, x),
            Effect::WriteTwo(a, v, b, y) => if_set(s.regs, b, y, j, if_set(s.regs, a, v, j, x)),
            Effect::SwapWord(a, i) => if_set(s.regs, a, s.word(i), j, x),
            Effect::Nothing | Effect::SetNode(..) => x,
        }
    }

    // The status as the effect leaves it.
    pub fn status(self, at: Status) -> Status
        ensures { result ≡ marked self at }
    {
        match self {
            Effect::SetNode(u, j) => at.with_node(u, j),
            _ => at,
        }
    }

    // The memory word that the effect would store.
    pub fn store(self, regs: &[u32]) -> Option<Store>
        ensures { result ≡ store_of self regs.now }
    {
        match self {
            Effect::SwapWord(a, i) => Some(Store {
                address: i,
                value: look(regs, a),
            }),
            _ => None,
        }
    }

    // What the effect does to the registers alone.
    pub fn write(self, regs: &mut [u32], mem: &[u32])
        ensures { regs.new ≡ written self regs.old mem.now }
    {
        match self {
            Effect::Write(a, v) => put(regs, a, v),
            Effect::WriteTwo(a, v, b, y) => {
                put(regs, a, v);
                put(regs, b, y);
            }
            Effect::SwapWord(a, i) => put(regs, a, look(mem, i as usize)),
            Effect::Nothing | Effect::SetNode(..) => {}
        }
    }

    // An exchange is performed at once: told by `store` and `write` first, it costs every turn of a run ten
    // instructions more.
    pub fn apply(self, regs: &mut [u32], mem: &mut [u32])
        ensures { (regs.new ≡ written self regs.old mem.old)
            × (mem.new ≡ stored self regs.old mem.old) }
    {
        match self {
            Effect::SwapWord(a, i) => swap_word(a, i as usize, regs, mem),
            _ => self.write(regs, mem),
        }
    }
}

// A register exchanged with the word at i.
fn swap_word(a: usize, i: usize, regs: &mut [u32], mem: &mut [u32])
    ensures { (regs.new ≡ set regs.old a (get_or mem.old i 0))
        × (mem.new ≡ set mem.old i (get_or regs.old a 0)) }
{
    let v = look(mem, i);
    put(mem, i, look(regs, a));
    put(regs, a, v);
}
