// The register record and its turns.
#![tactic(auto)]

ghost use Rattle.std.specs.Prelude.{◌≡◌, ◌≤◌, eqb};
ghost use Rattle.word.specs.Refusal.{refuse, number, kept};
ghost use Rattle.qins.specs.Decode.{is_instruction};
ghost use Rattle.step.specs.declared.Direction.{Direction};
ghost use Rattle.machine.specs.Machine.{status_of, record_at, positioned, with_status, new_record, zeros, wrong_sizes};
ghost use Rattle.machine.specs.Lent.{at_entry, at_exit};
ghost use Rattle.machine.specs.Calls.{turned_of, TurnPromise};
ghost use Rattle.machine.specs.Batch.{BatchPromise};
ghost use Rattle.machine.specs.Preview.{changed, preview_from, PreviewPromise};
ghost use Rattle.machine.specs.Position.{advanced};
ghost use Rattle.machine.specs.InPlace.{room, last_refusal, Runs, First, shown_record, shown_store};

mod cycle;
mod position;

use step::lent::{front, look};
use step::{Direction, Status, Store};
use word::refusals::{Refusal, number_in};

// The record: registers 0 pc, 1 br, 2 ro, 3 sp, 4-15 r1-r12; the node qifv and the wait count qifw; the sizes:
// K words of code, M of memory, N nodes; and the position, from any value: one more for each accepted turn
// forward, one less for each back. The fields of a status stand in it one by one, as C has them.
#[repr(C)]
#[derive(Clone, Copy)]
pub struct Record {
    pub regs: [u32; 16],
    pub qifv: u32,
    pub qifw: u32,
    pub k: u32,
    pub m: u32,
    pub n: u32,
    pub position: i64,
}

// What a turn answers to C: the new record, or the given one, and the refusal, 0 for none. The record is first,
// since a gap before it would have it copied out of step with how it was written.
#[repr(C)]
#[derive(Clone, Copy)]
pub struct Turned {
    pub state: Record,
    pub refusal: u32,
}

// What a batch answers, as C has it: the turns made, k, the refusal of the next one where they are fewer than
// asked for, else 0, and the new record. The turns stand beside a refusal, so this is no Result.
#[repr(C)]
#[derive(Clone, Copy)]
pub struct Batch {
    pub turns: u32,
    pub refusal: u32,
    pub state: Record,
}

// What a preview foresees: the record after the turn, and the memory word that it would change, with its new value.
#[derive(Clone, Copy)]
pub struct Foreseen {
    pub state: Record,
    pub change: Option<Store>,
}

// The same for C: the turn's refusal, 0 for none; whether it would change a memory word, 1 or 0, that word's
// address and new value, 0 where it would not; and the record after the turn, the given one where it is refused.
#[repr(C)]
#[derive(Clone, Copy)]
pub struct Preview {
    pub refusal: u32,
    pub changes: u32,
    pub address: u32,
    pub value: u32,
    pub state: Record,
}

// What a run comes to: the turns made, why there are no more where they are fewer than asked for, and the
// status and the registers after them. The record is not among it: its caller builds it, and it is copied less.
#[derive(Clone, Copy)]
struct Ran {
    turns: u32,
    refusal: Option<Refusal>,
    at: Status,
    regs: [u32; 16],
}

// The record of a status, registers and the position k turns further than p.
fn record_at(at: Status, regs: [u32; 16], d: Direction, k: u32, p: i64) -> Record
    requires { k ≤ room d p }
    ensures { result ≡ record_at at regs (advanced d k p) }
{
    Record::new(at, regs).at_position(position::advance(d, k, p))
}

// What is stored, where another word is present.
fn changed(store: Option<Store>, words: &[u32]) -> Option<Store>
    ensures { result ≡ changed store words.now }
{
    store.filter(|s| look(words, s.address as usize) != s.value)
}

impl Preview {
    // For a call with the given record.
    pub fn of(given: Record, answer: Result<Foreseen, Refusal>) -> Preview
        ensures { result ≡ preview_from given answer }
    {
        let seen = answer.unwrap_or(Foreseen {
            state: given,
            change: None,
        });
        let Store { address, value } = seen.change.unwrap_or(Store {
            address: 0,
            value: 0,
        });
        Preview {
            refusal: number_in(answer),
            changes: u32::from(seen.change.is_some()),
            address,
            value,
            state: seen.state,
        }
    }
}

// Memory and table are lent apart from the record, and from each other, as C lends them.
impl Record {
    // The most that M and N may be, the words of so many nodes, and those of one.
    pub const MAX_WORDS: u32 = step::sizes::MAX_WORDS;

    pub const MAX_NODES: u32 = step::sizes::MAX_NODES;

    pub const MAX_LINKS: usize = step::sizes::MAX_LINKS;

    pub const NODE_WORDS: usize = step::table::NODE_WORDS;

    // Of a status and registers, at position 0.
    pub fn new(at: Status, regs: [u32; 16]) -> Record
        ensures { result ≡ new_record at regs }
    {
        Record {
            regs,
            qifv: at.qifv,
            qifw: at.qifw,
            k: at.k,
            m: at.m,
            n: at.n,
            position: 0,
        }
    }

    pub fn zero() -> Record
        ensures { result ≡ zeros }
    {
        Record::new(Status::sized(0, 0, 0), [0; 16])
    }

    // At another position.
    pub fn at_position(self, p: i64) -> Record
        ensures { result ≡ positioned self p }
    {
        Record {
            position: p,
            ..self
        }
    }

    // With another node, wait count and sizes.
    pub fn with_status(self, at: Status) -> Record
        ensures { result ≡ with_status self at }
    {
        Record::new(at, self.regs).at_position(self.position)
    }

    // What a turn sees of the record beside its registers.
    pub fn status(self) -> Status
        ensures { result ≡ status_of self }
    {
        Status {
            qifv: self.qifv,
            qifw: self.qifw,
            k: self.k,
            m: self.m,
            n: self.n,
        }
    }

    // Refusal 10: sizes out of range, or lent memory or table too short.
    pub fn has_bad_sizes(self, mem: &[u32], table: &[u32]) -> bool
        ensures { result ≡ wrong_sizes (at_entry self mem.now table.now) }
    {
        self.status().has_bad_sizes(mem, table)
    }

    // The refusal of a turn at the last position.
    #[tactic(auto, unfolding(word::specs::Refusal::refuse))]
    fn last_refusal(self, mem: &[u32], table: &[u32]) -> Refusal
        ensures { result ≡ last_refusal (at_entry self mem.now table.now) }
    {
        if self.has_bad_sizes(mem, table) {
            return Refusal::Sizes;
        }
        Refusal::Position
    }

    // Turns until n are made or one is refused. The registers are taken out of the record once and put
    // back once, and no more are made than the position has room for, so that no turn looks at it.
    fn run(self, d: Direction, n: u32, mem: &mut [u32], table: &[u32]) -> Ran
        ensures { Runs d n (at_entry self mem.old table.now) result mem.new }
    {
        let mut regs = self.regs;
        let mut at = self.status();
        let most = position::limit(d, self.position, n);
        for i in 0..most {
            match cycle::turn(d, at, &mut regs, mem, table) {
                Ok(next) => at = next,
                Err(refusal) => {
                    return Ran {
                        turns: i,
                        refusal: Some(refusal),
                        at,
                        regs,
                    };
                }
            }
        }
        let refusal = if most < n {
            Some(self.last_refusal(mem, table))
        } else {
            None
        };
        Ran {
            turns: most,
            refusal,
            at,
            regs,
        }
    }

    fn batch(self, d: Direction, n: u32, mem: &mut [u32], table: &[u32]) -> Batch
        ensures { BatchPromise d n (at_entry self mem.old table.now) result.turns result.refusal (at_exit result.state mem.new table.now) }
    {
        let r = self.run(d, n, mem, table);
        Batch {
            turns: r.turns,
            refusal: r.refusal.map_or(0, Refusal::number),
            state: record_at(r.at, r.regs, d, r.turns, self.position),
        }
    }

    // Refused where there is no position further this way.
    #[tactic(auto, unfolding(word::specs::Refusal::refuse))]
    fn begin(self, d: Direction, mem: &[u32], table: &[u32]) -> Result<(), Refusal>
        ensures { result ≡ refuse (eqb (room d self.position) 0) (Err (last_refusal (at_entry self mem.now table.now))) (Ok tt) }
    {
        if position::room(d, self.position) == 0 {
            return Err(self.last_refusal(mem, table));
        }
        Ok(())
    }

    fn turn(self, d: Direction, mem: &mut [u32], table: &[u32]) -> Result<Record, Refusal>
        ensures { TurnPromise d (at_entry self mem.old table.now) (number result) (at_exit (kept self result) mem.new table.now) }
    {
        self.begin(d, mem, table)?;
        let mut regs = self.regs;
        let at = cycle::turn(d, self.status(), &mut regs, mem, table)?;
        Ok(record_at(at, regs, d, 1, self.position))
    }

    fn preview(self, d: Direction, mem: &[u32], table: &[u32]) -> Result<Foreseen, Refusal>
        ensures { PreviewPromise d (at_entry self mem.now table.now) (preview_from self result) }
    {
        let (state, store) = self.show(d, mem, table)?;
        Ok(Foreseen {
            state,
            change: changed(store, front(mem, self.m)),
        })
    }

    // One turn, shown: the record after it, and the word that it would store.
    fn show(
        self,
        d: Direction,
        mem: &[u32],
        table: &[u32],
    ) -> Result<(Record, Option<Store>), Refusal>
        ensures { First d (at_entry self mem.now table.now) (number result) (shown_record self result) (shown_store result) }
    {
        self.begin(d, mem, table)?;
        let mut regs = self.regs;
        let shown = cycle::show(d, self.status(), &mut regs, mem, table)?;
        Ok((record_at(shown.at, regs, d, 1, self.position), shown.store))
    }

    // ---- a name for each direction, as the calls of C have them

    // One turn forward.
    pub fn forward(self, mem: &mut [u32], table: &[u32]) -> Result<Record, Refusal>
        ensures { TurnPromise Direction.Forward (at_entry self mem.old table.now) (number result) (at_exit (kept self result) mem.new table.now) }
    {
        self.turn(Direction::Forward, mem, table)
    }

    // One turn back.
    pub fn back(self, mem: &mut [u32], table: &[u32]) -> Result<Record, Refusal>
        ensures { TurnPromise Direction.Back (at_entry self mem.old table.now) (number result) (at_exit (kept self result) mem.new table.now) }
    {
        self.turn(Direction::Back, mem, table)
    }

    // The turn forward, shown and not made.
    pub fn preview_forward(self, mem: &[u32], table: &[u32]) -> Result<Foreseen, Refusal>
        ensures { PreviewPromise Direction.Forward (at_entry self mem.now table.now) (preview_from self result) }
    {
        self.preview(Direction::Forward, mem, table)
    }

    // The turn back, shown and not made.
    pub fn preview_back(self, mem: &[u32], table: &[u32]) -> Result<Foreseen, Refusal>
        ensures { PreviewPromise Direction.Back (at_entry self mem.now table.now) (preview_from self result) }
    {
        self.preview(Direction::Back, mem, table)
    }

    // n turns forward, or those before the first refusal.
    pub fn forward_batch(self, n: u32, mem: &mut [u32], table: &[u32]) -> Batch
        ensures { BatchPromise Direction.Forward n (at_entry self mem.old table.now) result.turns result.refusal (at_exit result.state mem.new table.now) }
    {
        self.batch(Direction::Forward, n, mem, table)
    }

    // n turns back, likewise.
    pub fn back_batch(self, n: u32, mem: &mut [u32], table: &[u32]) -> Batch
        ensures { BatchPromise Direction.Back n (at_entry self mem.old table.now) result.turns result.refusal (at_exit result.state mem.new table.now) }
    {
        self.batch(Direction::Back, n, mem, table)
    }
}

// What the record answers to C, which gets it back where the turn is refused.
impl Turned {
    pub fn of(given: Record, turn: Result<Record, Refusal>) -> Turned
        ensures { result ≡ turned_of given turn }
    {
        Turned {
            state: turn.unwrap_or(given),
            refusal: number_in(turn),
        }
    }
}

// A turn on the word alone is refused by 13 exactly where the word is no instruction. By number: after `matches!` a proof
// has no name for what the other refusals are.
pub fn is_instruction(w: u32) -> bool
    ensures { result ≡ is_instruction w }
{
    let mut mem = [w];
    let r = Record::zero().with_status(Status::sized(1, 1, 0));
    number_in(r.forward(&mut mem, &[])) != Refusal::Instruction.number()
}
