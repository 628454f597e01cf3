// One word of the walk: what it is, and the machine's own turn where it leads on.
ghost use Rattle.std.specs.Prelude.{◌≡◌, length, get_or};
ghost use Rattle.qins.specs.Decode.{decode};
ghost use Rattle.qins.specs.Op.{Op};
ghost use Rattle.step.specs.declared.Direction.{Direction};
ghost use Rattle.step.specs.Step.{shifted};
ghost use Rattle.step.specs.View.{sized};
ghost use Rattle.machine.specs.Turn.{stride};
ghost use Rattle.machine.specs.Machine.{new_record};
ghost use Rattle.maker.specs.Idle.{is_gate, idle_op, kind_of, coin_of, is_before_start, plain, look_at};
ghost use Rattle.maker.specs.Parts.{view_at, moved_on, coin_in, Simple, Looks};

use crate::{Bounds, Kind, Seen};
use machine::Record;
use qins::Fields;
use step::Status;
use step::lent::look;
use word::refusals::Refusal;

// ---- words

// uni and unib, which idle.
fn is_gate(w: u32) -> bool
    ensures { result ≡ is_gate w }
{
    matches!(Fields::from(w).o, 32 | 33)
}

fn kind_of(w: u32) -> Kind
    ensures { result ≡ kind_of (idle_op w) }
{
    let f = Fields::from(w);
    if !qins::alone(qins::names_one(f.a, f.b), f.i) {
        return Kind::Plain;
    }
    match f.o {
        24 => Kind::Opens(f.a),
        25 => Kind::Closes(f.a),
        _ => Kind::Plain,
    }
}

impl Kind {
    // 0 for any other word, as its definition has it.
    fn coin(self) -> usize
        ensures { result ≡ coin_of self }
    {
        match self {
            Kind::Plain => 0,
            Kind::Opens(a) | Kind::Closes(a) => a,
        }
    }
}

// The register that the qif or fiq at pc names.
pub(crate) fn coin_at(regs: &[u32; 16], mem: &[u32]) -> usize
    ensures { result ≡ coin_in regs.now mem.now }
{
    kind_of(look(mem, regs[0] as usize)).coin()
}

// ---- pc moved on, as a turn forward moves it where nothing waits; machine's own asks for the wait and the direction

#[tactic(auto, unfolding(word::specs::Word::add_word))]
fn next_pc(regs: &[u32; 16]) -> u32
    ensures { result ≡ shifted Direction.Forward (get_or regs.now 0 0) (stride (get_or regs.now 1 0)) }
{
    let br = regs[1];
    regs[0].wrapping_add(if br == 0 { 1 } else { br })
}

pub(crate) fn moved_on(regs: [u32; 16]) -> [u32; 16]
    ensures { result ≡ moved_on regs }
{
    let mut next = regs;
    next[0] = next_pc(&regs);
    next
}

// ---- turns

impl Bounds {
    // The word after the one at pc is start.
    pub(crate) fn is_before_start(self, regs: &[u32; 16], mem: &[u32]) -> bool
        ensures { result ≡ is_before_start (view_at self.k self.m regs.now mem.now) }
    {
        let next = next_pc(regs);
        next < self.k && look(mem, next as usize) == qins::START
    }

    // That the memory has M words is asked of each of these: no invariant of a struct reaches what is lent beside it.
    // Only pc moves.
    fn idle_turn(self, regs: [u32; 16], mem: &[u32]) -> Result<Seen, Refusal>
        ensures { Looks self.k self.m mem.now result (plain Op.Start (view_at self.k self.m regs mem.now)) mem.now }
    {
        if self.is_before_start(&regs, mem) {
            return Err(Refusal::Landing);
        }
        Ok(Seen::Goes(moved_on(regs)))
    }

    // Without a node, without a table and away from the last position.
    fn record(self, regs: [u32; 16]) -> Record
        ensures { result ≡ new_record (sized self.k self.m 0) regs }
    {
        Record::new(Status::sized(self.k, self.m, 0), regs)
    }

    fn real_turn(self, regs: [u32; 16], mem: &mut [u32]) -> Result<Seen, Refusal>
        requires { (length mem.old ≡ self.m) × Simple regs mem.old self.k }
        ensures { Looks self.k self.m mem.old result (plain (decode (get_or mem.old (get_or regs 0 0) 0)) (view_at self.k self.m regs mem.old)) mem.new }
    {
        let next = self.record(regs).forward(mem, &[0; 1])?;
        Ok(Seen::Goes(next.regs))
    }

    // A word that is no qif or fiq.
    fn plain_turn(self, w: u32, regs: [u32; 16], mem: &mut [u32]) -> Result<Seen, Refusal>
        requires { (length mem.old ≡ self.m) × (get_or mem.old (get_or regs 0 0) 0 ≡ w) × Simple regs mem.old self.k }
        ensures { Looks self.k self.m mem.old result (plain (idle_op w) (view_at self.k self.m regs mem.old)) mem.new }
    {
        if !is_gate(w) {
            return self.real_turn(regs, mem);
        }
        if !machine::is_instruction(w) {
            return Err(Refusal::Instruction);
        }
        self.idle_turn(regs, mem)
    }

    // What stands at pc, with the turn made where it leads on.
    pub(crate) fn advance(self, regs: [u32; 16], mem: &mut [u32]) -> Result<Seen, Refusal>
        requires { length mem.old ≡ self.m }
        ensures { Looks self.k self.m mem.old result (look_at (view_at self.k self.m regs mem.old)) mem.new }
    {
        let pc = regs[0];
        if self.k <= pc {
            return Err(Refusal::Outside);
        }
        let w = look(mem, pc as usize);
        if w == qins::FINISH {
            return Ok(Seen::Last);
        }
        match kind_of(w) {
            Kind::Opens(_) if self.is_before_start(&regs, mem) => Err(Refusal::Landing),
            Kind::Opens(_) => Ok(Seen::Forks),
            Kind::Closes(_) => Ok(Seen::Joins),
            Kind::Plain => self.plain_turn(w, regs, mem),
        }
    }
}
