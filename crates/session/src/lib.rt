// The lesson bench: one record, lent by `&mut` to the calls that alter it and by `&` to those that only look. Each call
// is the call by value on that record; one that alters the bench stores the record that it answers.
#![tactic(auto)]

ghost use Rattle.std.specs.Prelude.{◌≡◌};
ghost use Rattle.word.specs.Refusal.{number, kept};
ghost use Rattle.step.specs.declared.Direction.{Direction};
ghost use Rattle.machine.specs.Calls.{TurnPromise};
ghost use Rattle.machine.specs.Batch.{BatchPromise};
ghost use Rattle.machine.specs.Preview.{PreviewPromise};
ghost use Rattle.wheel.specs.Wheel.{counts_of, WheelPromise};
ghost use Rattle.image.specs.Save.{SavePromise};
ghost use Rattle.links.specs.Check.{check_of, check_node_of};
ghost use Rattle.maker.specs.Make.{MakePromise};
ghost use Rattle.session.specs.Bench.{bench_at_entry, bench_at_exit, counts_in, BenchLoadPromise};

use image::Loaded;
use links::Checked;
use machine::{Batch, Preview, Record};
use maker::Made;
use wheel::Wheeled;
use word::refusals::{Refusal, number_in};

#[repr(C)]
#[derive(Clone, Copy)]
pub struct Bench {
    pub state: Record,
}

impl Bench {
    // Takes the record of an accepted call, and answers the number of a refusal, 0 for none.
    fn keep(&mut self, answer: Result<Record, Refusal>) -> u32
        ensures refusal { result ≡ number answer }
        ensures state { self.new.state ≡ kept self.old.state answer }
    {
        if let Ok(state) = answer {
            self.state = state;
        }
        number_in(answer)
    }
}

// What a batch on the bench answers, as C has it: the turns made, k, and the refusal of the next one where they are fewer
// than asked for, else 0.
#[repr(C)]
#[derive(Clone, Copy)]
pub struct Cranked {
    pub turns: u32,
    pub refusal: u32,
}

impl From<Batch> for Cranked {
    ghost from_gives = { λ t r. r ≡ record { turns = t.turns; refusal = t.refusal } };

    fn from(t: Batch) -> Cranked {
        Cranked {
            turns: t.turns,
            refusal: t.refusal,
        }
    }
}

// What the samples of a call came to on the bench, as C has it: as the call by value answers, without the record.
#[repr(C)]
#[derive(Clone, Copy)]
pub struct Sampled {
    pub forward: u64,
    pub back: u64,
    pub refused: u64,
    pub last: u32,
    pub refusal: u32,
}

impl From<Wheeled> for Sampled {
    ghost from_gives = { λ t r. counts_in r ≡ counts_of t };

    fn from(t: Wheeled) -> Sampled {
        Sampled {
            forward: t.forward,
            back: t.back,
            refused: t.refused,
            last: t.last,
            refusal: t.refusal,
        }
    }
}

// What the making of a table on the bench answers: likewise.
#[repr(C)]
#[derive(Clone, Copy)]
pub struct Tabled {
    pub refusal: u32,
    pub cycles: u32,
}

impl From<Made> for Tabled {
    ghost from_gives = { λ t r. r ≡ record { refusal = t.refusal; cycles = t.cycles } };

    fn from(t: Made) -> Tabled {
        Tabled {
            refusal: t.refusal,
            cycles: t.cycles,
        }
    }
}

// ---- calls that alter the bench; a name for each direction, and words lent apart from the bench, since C calls them so

// One turn forward; the answer is its refusal, 0 for none.
#[unsafe(no_mangle)]
pub extern "C" fn bench_forward(b: &mut Bench, mem: &mut [u32], table: &[u32]) -> u32
    ensures { TurnPromise Direction.Forward (bench_at_entry b.old mem.old table.now) result (bench_at_exit b.new mem.new table.now) }
{
    let answer = b.state.forward(mem, table);
    b.keep(answer)
}

// One turn back.
#[unsafe(no_mangle)]
pub extern "C" fn bench_back(b: &mut Bench, mem: &mut [u32], table: &[u32]) -> u32
    ensures { TurnPromise Direction.Back (bench_at_entry b.old mem.old table.now) result (bench_at_exit b.new mem.new table.now) }
{
    let answer = b.state.back(mem, table);
    b.keep(answer)
}

// n turns forward, or those before the first refusal.
#[unsafe(no_mangle)]
pub extern "C" fn bench_forward_batch(
    b: &mut Bench,
    n: u32,
    mem: &mut [u32],
    table: &[u32],
) -> Cranked
    ensures { BatchPromise Direction.Forward n (bench_at_entry b.old mem.old table.now) result.turns result.refusal (bench_at_exit b.new mem.new table.now) }
{
    let t = b.state.forward_batch(n, mem, table);
    b.state = t.state;
    Cranked::from(t)
}

// n turns back, likewise.
#[unsafe(no_mangle)]
pub extern "C" fn bench_back_batch(b: &mut Bench, n: u32, mem: &mut [u32], table: &[u32]) -> Cranked
    ensures { BatchPromise Direction.Back n (bench_at_entry b.old mem.old table.now) result.turns result.refusal (bench_at_exit b.new mem.new table.now) }
{
    let t = b.state.back_batch(n, mem, table);
    b.state = t.state;
    Cranked::from(t)
}

// The turns that the wheel makes from the given sample through the samples.
#[unsafe(no_mangle)]
pub extern "C" fn bench_samples(
    b: &mut Bench,
    given: u8,
    samples: &[u8],
    mem: &mut [u32],
    table: &[u32],
) -> Sampled
    ensures { WheelPromise given samples.now (bench_at_entry b.old mem.old table.now) (counts_in result) (bench_at_exit b.new mem.new table.now) }
{
    let t = wheel::follow(b.state, given, samples, mem, table);
    b.state = t.state;
    Sampled::from(t)
}

// Loads an image: the bench takes its record, and is left as it was where the load is refused.
#[unsafe(no_mangle)]
pub extern "C" fn bench_load(
    b: &mut Bench,
    file: &[u8],
    mem: &mut [u32],
    table: &mut [u32],
) -> Loaded
    ensures { BenchLoadPromise file.now (bench_at_entry b.old mem.old table.old) result (bench_at_exit b.new mem.new table.new) }
{
    let answer = image::load(file, mem, table);
    b.keep(answer);
    Loaded::from(answer)
}

// Makes the qif table, in at most limit cycles walked.
#[unsafe(no_mangle)]
pub extern "C" fn bench_make_table(
    b: &mut Bench,
    limit: u32,
    mem: &mut [u32],
    table: &mut [u32],
    scratch: &mut [u32],
) -> Tabled
    ensures { MakePromise (bench_at_entry b.old mem.old table.old) limit scratch.old result.refusal result.cycles (bench_at_exit b.new mem.new table.new) scratch.new }
{
    let made = Made::of(b.state, maker::make(b.state, limit, mem, table, scratch));
    b.state = made.state;
    Tabled::from(made)
}

// ---- calls that only look at it

// The turn forward, shown and not made.
#[unsafe(no_mangle)]
pub extern "C" fn bench_preview_forward(b: &Bench, mem: &[u32], table: &[u32]) -> Preview
    ensures { PreviewPromise Direction.Forward (bench_at_entry b.now mem.now table.now) result }
{
    Preview::of(b.state, b.state.preview_forward(mem, table))
}

// The turn back, likewise.
#[unsafe(no_mangle)]
pub extern "C" fn bench_preview_back(b: &Bench, mem: &[u32], table: &[u32]) -> Preview
    ensures { PreviewPromise Direction.Back (bench_at_entry b.now mem.now table.now) result }
{
    Preview::of(b.state, b.state.preview_back(mem, table))
}

// Writes the image to the front of out; the answer is the refusal.
#[unsafe(no_mangle)]
pub extern "C" fn bench_save(b: &Bench, mem: &[u32], table: &[u32], out: &mut [u8]) -> u32
    ensures { SavePromise (bench_at_entry b.now mem.now table.now) out.old result out.new }
{
    number_in(image::save(b.state, mem, table, out))
}

// The check of the code words and of all links.
#[unsafe(no_mangle)]
pub extern "C" fn bench_check(b: &Bench, mem: &[u32], table: &[u32]) -> Checked
    ensures { result ≡ check_of (bench_at_entry b.now mem.now table.now) }
{
    Checked::from(links::check(b.state, mem, table))
}

// The check of one node's links.
#[unsafe(no_mangle)]
pub extern "C" fn bench_check_node(b: &Bench, node: u32, mem: &[u32], table: &[u32]) -> u32
    ensures { result ≡ check_node_of (bench_at_entry b.now mem.now table.now) node }
{
    number_in(links::check_node(b.state, node, mem, table))
}
