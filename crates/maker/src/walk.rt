// The walk of a branch and the walk of a qif, which call each other: the nesting left falls, and in a branch
// the cycles left do.
ghost use Rattle.std.specs.Prelude.{◌≡◌, ◌&&◌, ◌+◌, ◌-◌, ◌≤◌, ◌<◌, max, length};
ghost use Rattle.word.specs.Lists.{same};
ghost use Rattle.word.specs.Refusal.{number};
ghost use Rattle.maker.specs.Walk.{linked};
ghost use Rattle.maker.specs.Making.{branch_at, fork_at};
ghost use Rattle.maker.specs.Idle.{machine};
ghost use Rattle.maker.specs.Parts.{view_at, entered, left, held_of, Room, walked_at, Shown, ShownFork, qif_refusal_of, fiq_refusal_of};

use crate::draw::link_up;
use crate::look::{coin_at, moved_on};
use crate::{Bounds, Seen, Walked, copy};
use step::lent::{look, put};
use word::refusals::Refusal;

// ---- where a walk is

impl Walked {
    // Before a branch the register changes and then pc moves, after it pc moves first: two functions, not one with a flag.

    // The registers of a branch at its beginning: the coin x in register a, and then pc moved on.
    fn enter(self, a: usize, x: u32) -> [u32; 16]
        ensures { result ≡ entered self.regs a x }
    {
        let mut regs = self.regs;
        put(&mut regs, a, x);
        moved_on(regs)
    }

    // Those after its fiq: pc moved on, and then the old word in register a.
    fn leave(self, a: usize, old: u32) -> [u32; 16]
        ensures { result ≡ left self.regs a old }
    {
        let mut regs = moved_on(self.regs);
        put(&mut regs, a, old);
        regs
    }

    // The fiq at pc names register a, which holds x.
    fn holds(self, a: usize, x: u32, mem: &[u32]) -> bool
        ensures { result ≡ held_of a x self.regs mem.now }
    {
        let c = coin_at(&self.regs, mem);
        a == c && look(&self.regs, c) == x
    }
}

// ---- the tests of a qif

impl Bounds {
    #[tactic(auto, unfolding(crate::specs::Parts::qif_refusal_of, word::specs::Refusal::refuse))]
    fn check_qif(self, from: Walked) -> Result<(), Refusal>
        ensures { number result ≡ qif_refusal_of self.limit from.nodes from.used }
    {
        if self.limit <= from.used || 509 < from.nodes {
            return Err(Refusal::Bound);
        }
        Ok(())
    }

    // At the fiq of branch x, of a qif with register a; full: no node may be made.
    #[tactic(auto, unfolding(crate::specs::Parts::fiq_refusal_of, word::specs::Refusal::refuse))]
    fn check_fiq(self, a: usize, x: u32, full: bool, at: Walked, mem: &[u32]) -> Result<(), Refusal>
        ensures { number result ≡ fiq_refusal_of self.k self.m self.limit a x full at.used at.regs mem.now }
    {
        if self.is_before_start(&at.regs, mem) {
            return Err(Refusal::Landing);
        }
        if self.limit <= at.used || full {
            return Err(Refusal::Bound);
        }
        if !at.holds(a, x, mem) {
            return Err(Refusal::Branches);
        }
        Ok(())
    }
}

// The two branches stand the same after their fiq: registers and memory, that of branch 0 being saved.
#[tactic(auto, using(crate::proofs::Compared::alike))]
fn agree(a: usize, old: u32, first: Walked, second: Walked, mem: &[u32], saved: &[u32]) -> bool
    ensures { result ≡ (same (left first.regs a old) (left second.regs a old)
        && same saved.now mem.now) }
{
    first.leave(a, old) == second.leave(a, old) && saved == mem
}

// Where the walk goes on with regs, after the qif at from, whose branches came to first and second.
fn join(from: Walked, first: Walked, second: Walked, regs: [u32; 16], table: &mut [u32]) -> Walked
    requires { (from.nodes ≤ 509) × (second.nodes ≤ 510) × (second.used + 1 < 4294967296) × (2 + max first.cycles second.cycles ≤ second.used) }
    ensures { (result ≡ walked_at regs (second.used + 1) (2 + max first.cycles second.cycles) (second.nodes + 1) (second.nodes + 1))
        × (table.new ≡ linked from.node (from.nodes + 1) (from.nodes + 2) first.node second.node (second.nodes + 1)
        (second.cycles - first.cycles) (first.cycles - second.cycles) table.old) }
{
    link_up(table, from, first, second);
    Walked {
        regs,
        used: second.used + 1,
        cycles: 2 + first.cycles.max(second.cycles),
        nodes: second.nodes + 1,
        node: second.nodes + 1,
    }
}

// ---- the walks. Memory, scratch and table stay three parameters: the scratch is another one at each nesting, and
// a struct of the other two would be lent anew at each call, which is no plainer.

// `inside` picks no other walk: it says which ends are right, at finish or at a fiq.
impl Bounds {
    #[cycle(branch_fork)]
    pub(crate) fn branch(
        self,
        nest: u32,
        inside: bool,
        from: Walked,
        mem: &mut [u32],
        scratch: &mut [u32],
        table: &mut [u32],
    ) -> Result<Walked, Refusal>
        requires { (length mem.old ≡ self.m) × Room nest self.m (length scratch.old) }
        ensures { Shown self.k self.m (branch_at machine self.limit nest inside from.nodes from.used (view_at self.k self.m from.regs mem.old))
            from.node from.nodes from.used table.old result table.new mem.new }
    {
        let mut at = Walked { cycles: 0, ..from };
        loop {
            match self.advance(at.regs, mem)? {
                Seen::Last if inside => return Err(Refusal::End),
                Seen::Last => return Ok(at),
                Seen::Goes(_) if self.limit <= at.used => return Err(Refusal::Bound),
                Seen::Goes(regs) => {
                    at = Walked {
                        regs,
                        used: at.used + 1,
                        cycles: at.cycles + 1,
                        ..at
                    };
                }
                Seen::Forks => {
                    let after = self.fork(nest, at, mem, scratch, table)?;
                    at = Walked {
                        cycles: at.cycles + after.cycles,
                        ..after
                    };
                }
                Seen::Joins if inside => return Ok(at),
                Seen::Joins => return Err(Refusal::Node),
            }
        }
    }

    // The memory of the start is saved in the front of the scratch, and that of branch 0's end in its place;
    // the branches have the rest. The second branch begins with what the first left, so they are no loop of two.
    #[cycle(branch_fork)]
    pub(crate) fn fork(
        self,
        nest: u32,
        from: Walked,
        mem: &mut [u32],
        scratch: &mut [u32],
        table: &mut [u32],
    ) -> Result<Walked, Refusal>
        requires { (length mem.old ≡ self.m) × Room nest self.m (length scratch.old) }
        ensures { ShownFork self.k self.m (fork_at machine self.limit nest from.nodes from.used (view_at self.k self.m from.regs mem.old))
            from.node from.nodes from.used table.old result table.new mem.new }
    {
        if nest == 0 {
            return Err(Refusal::Bound);
        }
        self.check_qif(from)?;
        let c = coin_at(&from.regs, mem);
        let old = look(&from.regs, c);
        let (saved, rest) = scratch.split_at_mut(mem.len());
        copy(mem, saved);
        let regs = from.enter(c, 0);
        let one = Walked {
            regs,
            used: from.used + 1,
            cycles: 0,
            nodes: from.nodes + 2,
            node: from.nodes + 1,
        };
        let first = self.branch(nest - 1, true, one, mem, rest, table)?;
        self.check_fiq(c, 0, false, first, mem)?;
        mem.swap_with_slice(saved);
        let regs = from.enter(c, 1);
        let two = Walked {
            regs,
            used: first.used + 1,
            cycles: 0,
            nodes: first.nodes,
            node: from.nodes + 2,
        };
        let second = self.branch(nest - 1, true, two, mem, rest, table)?;
        self.check_fiq(c, 1, 510 < second.nodes, second, mem)?;
        if !agree(c, old, first, second, mem, saved) {
            return Err(Refusal::Branches);
        }
        Ok(join(from, first, second, first.leave(c, old), table))
    }
}
