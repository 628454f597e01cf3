// The cycle of one turn, in place: the registers stand in a lent array of the caller's, so that a run
// of turns neither copies nor rebuilds the record.
ghost use Rattle.std.specs.Prelude.{◌≡◌, false, take};
ghost use Rattle.word.specs.Refusal.{number, kept, refused_or};
ghost use Rattle.step.specs.View.{view_in, links_in};
ghost use Rattle.step.specs.Step.{Attempt, performed};
ghost use Rattle.machine.specs.Turn.{moved_pc, from_pc, to_pc, new_pc, starts, landed, judged};
ghost use Rattle.machine.specs.InPlace.{Plans, Steps, Shows};

use step::lent::{look, put};
use step::{Direction, Effect, Seen, Status, Store};
use word::refusals::Refusal;

// ---- pc

fn moved_pc(d: Direction, wait: u32, pc: u32, br: u32) -> u32
    ensures { result ≡ moved_pc d wait pc br }
{
    if wait != 0 {
        return pc;
    }
    d.shift(pc, if br == 0 { 1 } else { br })
}

// pc as the operation finds it: back, it has shrunk; and as it is after the effect: forward, it moves on. Two functions of
// one line: one for both would take a flag for which of the two is asked.
fn from_pc(d: Direction, wait: u32, pc: u32, br: u32) -> u32
    ensures { result ≡ from_pc d wait pc br }
{
    d.pick(pc, moved_pc(d, wait, pc, br))
}

fn to_pc(d: Direction, wait: u32, pc: u32, br: u32) -> u32
    ensures { result ≡ to_pc d wait pc br }
{
    d.pick(moved_pc(d, wait, pc, br), pc)
}

// pc after the effect and, forward, the move on.
#[inline(always)]
fn next_pc(d: Direction, e: Effect, s: Seen<'_>) -> u32
    ensures { result ≡ new_pc d (performed e (view_in s.entry)) }
{
    to_pc(d, e.status(s.at).qifw, e.register(s, 0), e.register(s, 1))
}

// ---- refusals around the word's own, except 21, which the run sees to

// Address i is below K and holds start.
fn is_start(s: Seen<'_>, i: u32) -> bool
    ensures { result ≡ starts s.entry.at (take s.entry.at.m s.entry.mem.now) i }
{
    i < s.at.k && s.word(i) == qins::START
}

// Those before it; old is pc before it shrank.
#[tactic(auto, unfolding(word::specs::Refusal::refuse, crate::specs::Turn::judged))]
fn begin(d: Direction, old: u32, s: Seen<'_>) -> Result<(), Refusal>
    ensures { (a : Attempt) → refused_or result a ≡ judged (links_in s.entry) d false old (view_in s.entry) a }
{
    if s.at.has_bad_sizes(s.mem, s.table) {
        return Err(Refusal::Sizes);
    }
    let ready = s.at.qifw == 0;
    if d == Direction::Back && ready && is_start(s, old) {
        return Err(Refusal::End);
    }
    let pc = s.reg(0);
    if s.at.k <= pc {
        return Err(Refusal::Outside);
    }
    let finish = s.word(pc) == qins::FINISH;
    match d {
        Direction::Forward if finish => Err(Refusal::End),
        Direction::Back if ready && finish => Err(Refusal::Landing),
        _ => Ok(()),
    }
}

// And 18 after it: pc moves on to start.
#[tactic(auto, unfolding(word::specs::Refusal::refuse, crate::specs::Turn::landed))]
fn land(d: Direction, e: Effect, next: u32, s: Seen<'_>) -> Result<(), Refusal>
    ensures { next ≡ new_pc d (performed e (view_in s.entry)) → refused_or result (Ok e) ≡ landed d (view_in s.entry) (Ok e) }
{
    let ready = e.status(s.at).qifw == 0;
    if d == Direction::Forward && ready && is_start(s, next) {
        return Err(Refusal::Landing);
    }
    Ok(())
}

// ---- the turn

// The registers are lent apart from what is only read, since a turn writes them: a `Seen` has all four to read.

// What a turn is to do, and pc after it.
#[derive(Clone, Copy)]
pub(crate) struct Planned {
    effect: Effect,
    next: u32,
}

// Leaves the registers as the operation finds them. Inlined, as in step's operation.rt.
#[inline(always)]
#[tactic(auto, using(crate::proofs::InPlace::landed_err))]
fn plan(
    d: Direction,
    at: Status,
    regs: &mut [u32],
    mem: &[u32],
    table: &[u32],
) -> Result<Planned, Refusal>
    ensures { Plans d at regs.old mem.now table.now result regs.new }
{
    let old = look(regs, 0);
    put(regs, 0, from_pc(d, at.qifw, old, look(regs, 1)));
    let s = Seen {
        at,
        regs,
        mem,
        table,
    };
    begin(d, old, s)?;
    let effect = s.attempt(d, s.word(s.reg(0)))?;
    let next = next_pc(d, effect, s);
    land(d, effect, next, s)?;
    Ok(Planned { effect, next })
}

// One turn. The memory is written when no refusal is left; a refused turn puts pc back.
#[inline(always)]
pub(crate) fn turn(
    d: Direction,
    at: Status,
    regs: &mut [u32],
    mem: &mut [u32],
    table: &[u32],
) -> Result<Status, Refusal>
    ensures { Steps d at regs.old mem.old table.now (number result) (kept at result) regs.new mem.new }
{
    let old = look(regs, 0);
    match plan(d, at, regs, mem, table) {
        Ok(p) => {
            let top = mem.len().min(at.m as usize);
            p.effect.apply(regs, &mut mem[..top]);
            put(regs, 0, p.next);
            Ok(p.effect.status(at))
        }
        Err(refusal) => {
            put(regs, 0, old);
            Err(refusal)
        }
    }
}

// What a turn that is only shown comes to: the status after it, and the word that it would store.
#[derive(Clone, Copy)]
pub(crate) struct Shown {
    pub(crate) at: Status,
    pub(crate) store: Option<Store>,
}

// One turn of the registers over a memory that is only read, where `turn` is lent one to write.
pub(crate) fn show(
    d: Direction,
    at: Status,
    regs: &mut [u32],
    mem: &[u32],
    table: &[u32],
) -> Result<Shown, Refusal>
    ensures { Shows d at regs.old mem.now table.now result regs.new }
{
    let old = look(regs, 0);
    match plan(d, at, regs, mem, table) {
        Ok(p) => {
            let store = p.effect.store(regs);
            let top = mem.len().min(at.m as usize);
            p.effect.write(regs, &mem[..top]);
            put(regs, 0, p.next);
            Ok(Shown {
                at: p.effect.status(at),
                store,
            })
        }
        Err(refusal) => {
            put(regs, 0, old);
            Err(refusal)
        }
    }
}
