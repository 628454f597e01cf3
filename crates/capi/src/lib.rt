// The calls for other programs: C functions over the proved ones, nothing of their own.
#![tactic(auto)]

ghost use Rattle.std.specs.Prelude.{◌≡◌, length};
ghost use Rattle.step.specs.declared.Direction.{Direction};
ghost use Rattle.machine.specs.Lent.{at_entry, at_exit};
ghost use Rattle.machine.specs.Calls.{TurnPromise};
ghost use Rattle.machine.specs.Batch.{BatchPromise};
ghost use Rattle.machine.specs.Preview.{PreviewPromise};
ghost use Rattle.wheel.specs.Wheel.{counts_of, WheelPromise};
ghost use Rattle.word.specs.Word.{pick};
ghost use Rattle.qins.specs.Decode.{is_instruction};
ghost use Rattle.image.specs.Load.{LoadPromise, preface_of};
ghost use Rattle.image.specs.Save.{SavePromise};
ghost use Rattle.links.specs.Check.{check_of, check_node_of};
ghost use Rattle.maker.specs.Make.{MakePromise};

use image::Loaded;
use links::Checked;
use machine::{Batch, Preview, Record, Turned};
use maker::Made;
use wheel::Wheeled;
use word::refusals::number_in;

// 1 where the word is an instruction, else 0.
#[unsafe(no_mangle)]
pub extern "C" fn qins_is_instruction(w: u32) -> u32
    ensures { result ≡ pick (is_instruction w) 1 0 }
{
    u32::from(machine::is_instruction(w))
}

#[unsafe(no_mangle)]
pub extern "C" fn crank_forward(r: Record, mem: &mut [u32], table: &[u32]) -> Turned
    ensures { TurnPromise Direction.Forward (at_entry r mem.old table.now) result.refusal (at_exit result.state mem.new table.now) }
{
    Turned::of(r, r.forward(mem, table))
}

#[unsafe(no_mangle)]
pub extern "C" fn crank_back(r: Record, mem: &mut [u32], table: &[u32]) -> Turned
    ensures { TurnPromise Direction.Back (at_entry r mem.old table.now) result.refusal (at_exit result.state mem.new table.now) }
{
    Turned::of(r, r.back(mem, table))
}

#[unsafe(no_mangle)]
pub extern "C" fn crank_preview_forward(r: Record, mem: &[u32], table: &[u32]) -> Preview
    ensures { PreviewPromise Direction.Forward (at_entry r mem.now table.now) result }
{
    Preview::of(r, r.preview_forward(mem, table))
}

#[unsafe(no_mangle)]
pub extern "C" fn crank_preview_back(r: Record, mem: &[u32], table: &[u32]) -> Preview
    ensures { PreviewPromise Direction.Back (at_entry r mem.now table.now) result }
{
    Preview::of(r, r.preview_back(mem, table))
}

#[unsafe(no_mangle)]
pub extern "C" fn crank_forward_batch(r: Record, n: u32, mem: &mut [u32], table: &[u32]) -> Batch
    ensures { BatchPromise Direction.Forward n (at_entry r mem.old table.now) result.turns result.refusal (at_exit result.state mem.new table.now) }
{
    r.forward_batch(n, mem, table)
}

#[unsafe(no_mangle)]
pub extern "C" fn crank_back_batch(r: Record, n: u32, mem: &mut [u32], table: &[u32]) -> Batch
    ensures { BatchPromise Direction.Back n (at_entry r mem.old table.now) result.turns result.refusal (at_exit result.state mem.new table.now) }
{
    r.back_batch(n, mem, table)
}

#[unsafe(no_mangle)]
pub extern "C" fn crank_samples(
    r: Record,
    given: u8,
    samples: &[u8],
    mem: &mut [u32],
    table: &[u32],
) -> Wheeled
    ensures { WheelPromise given samples.now (at_entry r mem.old table.now) (counts_of result) (at_exit result.state mem.new table.now) }
{
    wheel::follow(r, given, samples, mem, table)
}

#[unsafe(no_mangle)]
pub extern "C" fn crank_load(file: &[u8], mem: &mut [u32], table: &mut [u32]) -> Loaded
    ensures { LoadPromise file.now mem.old table.old result.refusal (at_exit result.state mem.new table.new) }
{
    Loaded::from(image::load(file, mem, table))
}

// The preface is the file's first so many bytes.
#[unsafe(no_mangle)]
pub extern "C" fn crank_preface_length(file: &[u8]) -> usize
    ensures { result ≡ length (preface_of file.now) }
{
    image::preface(file).len()
}

#[unsafe(no_mangle)]
pub extern "C" fn crank_save(r: Record, mem: &[u32], table: &[u32], out: &mut [u8]) -> u32
    ensures { SavePromise (at_entry r mem.now table.now) out.old result out.new }
{
    number_in(image::save(r, mem, table, out))
}

#[unsafe(no_mangle)]
pub extern "C" fn crank_check(r: Record, mem: &[u32], table: &[u32]) -> Checked
    ensures { result ≡ check_of (at_entry r mem.now table.now) }
{
    Checked::from(links::check(r, mem, table))
}

#[unsafe(no_mangle)]
pub extern "C" fn crank_check_node(r: Record, node: u32, mem: &[u32], table: &[u32]) -> u32
    ensures { result ≡ check_node_of (at_entry r mem.now table.now) node }
{
    number_in(links::check_node(r, node, mem, table))
}

#[unsafe(no_mangle)]
pub extern "C" fn crank_make_table(
    r: Record,
    limit: u32,
    mem: &mut [u32],
    table: &mut [u32],
    scratch: &mut [u32],
) -> Made
    ensures { MakePromise (at_entry r mem.old table.old) limit scratch.old result.refusal result.cycles (at_exit result.state mem.new table.new) scratch.new }
{
    Made::of(r, maker::make(r, limit, mem, table, scratch))
}
