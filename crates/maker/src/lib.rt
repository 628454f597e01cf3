// The qif table of a program, made by walking it through both branches of every qif, uni and unib idle.
#![tactic(auto)]

ghost use Rattle.std.specs.Prelude.{◌≡◌, ◌*◌, ◌<◌, ◌≤◌, length};
ghost use Rattle.word.specs.Refusal.{number};
ghost use Rattle.maker.specs.Parts.{Sized};
ghost use Rattle.machine.specs.Lent.{at_entry, at_exit};
ghost use Rattle.maker.specs.Make.{most_words, scratch_words, walk_over, can_begin, refusal_of, made_as, with_table, answer_of, drawn_by, cycles_in, state_in, MakePromise};

mod draw;
mod look;
mod walk;

use machine::Record;
use step::lent::{front, look};
use word::refusals::{Refusal, number_in};

// What a word is to a walk: a qif or a fiq, with the register of its coin, or any other.
#[derive(Clone, Copy)]
enum Kind {
    Plain,
    Opens(usize),
    Closes(usize),
}

// What stands at pc: finish, a word that leads on, with the registers after it, a qif, a fiq.
#[derive(Clone, Copy)]
enum Seen {
    Last,
    Goes([u32; 16]),
    Forks,
    Joins,
}

// Where a walk is: the registers, the cycles used by all of it, those of this branch with the waits, the nodes
// made and the present one.
#[derive(Clone, Copy)]
struct Walked {
    regs: [u32; 16],
    used: u32,
    cycles: u32,
    nodes: u32,
    node: u32,
}

// What a walk stays in: K and M of its program, and the cycles allowed.
#[derive(Clone, Copy)]
struct Bounds {
    k: u32,
    m: u32,
    limit: u32,
    ghost in_range: { (0 < k) × (k ≤ m) × (m ≤ 8192) },
}

// What is made: the cycles of a walk over the table, and the record at its node 1.
#[derive(Clone, Copy)]
pub struct Finished {
    pub cycles: u32,
    pub state: Record,
}

// The same for C: the refusal, 0 for none, with no cycles and the given record beside it.
#[repr(C)]
#[derive(Clone, Copy)]
pub struct Made {
    pub refusal: u32,
    pub cycles: u32,
    pub state: Record,
}

impl Made {
    // The answer to a call with the record r.
    pub fn of(r: Record, answer: Result<Finished, Refusal>) -> Made
        ensures { result ≡ made_as (number answer) (cycles_in answer) (state_in r answer) }
    {
        let end = answer.unwrap_or(Finished {
            cycles: 0,
            state: r,
        });
        Made {
            refusal: number_in(answer),
            cycles: end.cycles,
            state: end.state,
        }
    }
}

// pc is at start, there is no table yet and no wait, and what is lent is long enough.
fn can_begin(r: Record, mem: &[u32], table: &[u32], scratch: &[u32]) -> bool
    ensures { result ≡ can_begin (at_entry r mem.now table.now) scratch.now }
{
    let pc = r.regs[0];
    pc < r.k
        && look(front(mem, r.m), pc as usize) == qins::START
        && r.n == 0
        && r.qifw == 0
        && Record::MAX_LINKS <= table.len()
        && 16 * (r.m as usize) <= scratch.len()
}

// The refusals of a call before it writes anything.
#[tactic(auto, unfolding(word::specs::Refusal::refuse))]
fn check_start(r: Record, mem: &[u32], table: &[u32], scratch: &[u32]) -> Result<(), Refusal>
    ensures { number result ≡ refusal_of (at_entry r mem.now table.now) scratch.now }
{
    if r.has_bad_sizes(mem, table) {
        return Err(Refusal::Sizes);
    }
    if !can_begin(r, mem, table, scratch) {
        return Err(Refusal::Begin);
    }
    Ok(())
}

// Writes the words of from to to, which is as long. By a loop: with the library's copy the archives for C want memmove.
fn copy(from: &[u32], to: &mut [u32])
    requires { length from.now ≡ length to.old }
    ensures { to.new ≡ from.now }
{
    for (i, word) in to.iter_mut().enumerate() {
        *word = from[i];
    }
}

// The walk from node 1 over exactly M words of memory, which are left as they were, and a table of zeros; zeros
// again after a refusal.
// C lends the scratch as words: a walk keeps one memory after the other in it.
fn walk_whole(
    r: Record,
    limit: u32,
    mem: &mut [u32],
    table: &mut [u32],
    scratch: &mut [u32],
) -> Result<Finished, Refusal>
    requires { Sized r.k r.m (length mem.old) × (scratch_words r ≤ length scratch.old) × (length table.old ≡ most_words) }
    ensures { (made_as (number result) (cycles_in result) (state_in r result) ≡ answer_of r (walk_over r limit mem.old))
        × (table.new ≡ drawn_by (walk_over r limit mem.old))
        × (mem.new ≡ mem.old) }
{
    table.fill(0);
    let (saved, rest) = scratch.split_at_mut(mem.len());
    copy(mem, saved);
    let regs = r.regs;
    let start = Walked {
        regs,
        used: 0,
        cycles: 0,
        nodes: 1,
        node: 1,
    };
    let bounds = Bounds {
        k: r.k,
        m: r.m,
        limit,
    };
    let walked = bounds.branch(8, false, start, mem, rest, table);
    copy(saved, mem);
    match walked {
        Ok(end) => Ok(Finished {
            cycles: end.cycles,
            state: at_node_one(r, end.nodes),
        }),
        Err(refusal) => {
            table.fill(0);
            Err(refusal)
        }
    }
}

// The record at node 1 of n.
fn at_node_one(r: Record, n: u32) -> Record
    ensures { result ≡ with_table r n }
{
    r.with_status(r.status().with_nodes(n).with_node(1, r.qifw))
}

// Makes the table of the program in mem, in at most limit cycles walked. Where it is refused, memory is as it was,
// and the table too, or zeros.
pub fn make(
    r: Record,
    limit: u32,
    mem: &mut [u32],
    table: &mut [u32],
    scratch: &mut [u32],
) -> Result<Finished, Refusal>
    ensures { MakePromise (at_entry r mem.old table.old) limit scratch.old (number result) (cycles_in result) (at_exit (state_in r result) mem.new table.new) scratch.new }
{
    check_start(r, mem, table, scratch)?;
    let words = r.m as usize;
    walk_whole(
        r,
        limit,
        &mut mem[..words],
        &mut table[..Record::MAX_LINKS],
        &mut scratch[..16 * words],
    )
}
