// Machine images: load, preface and save.
#![tactic(auto)]

ghost use Rattle.std.specs.Prelude.{◌≡◌, ◌++◌, ◌*◌, ◌^◌, ◌<◌, ◌≤◌, length, drop};
ghost use Rattle.word.specs.Refusal.{number};
ghost use Rattle.step.specs.Table.{table_words};
ghost use Rattle.machine.specs.Lent.{at_entry, at_exit};
ghost use Rattle.image.specs.Format.{newest, back_of, image};
ghost use Rattle.image.specs.Load.{load_refusal, filled, loaded_or_zero, LoadPromise, preface_of};
ghost use Rattle.image.specs.Save.{SaveDecided, SavePromise};

mod kinds;
mod trailer;
mod words;

use kinds::NEWEST;
use machine::Record;
use step::table::table_words;
use trailer::{Trailer, read_trailer, write_trailer};
use word::refusals::{Refusal, number_in};
use words::{read_words, write_words};

// What load answers, for C: the refusal's number, 0 for none, and the record, zeros where it is refused.
#[repr(C)]
#[derive(Clone, Copy)]
pub struct Loaded {
    pub refusal: u32,
    pub state: Record,
}

impl From<Result<Record, Refusal>> for Loaded {
    ghost from_gives = { λ answer loaded. loaded ≡ record { refusal = number answer; state = loaded_or_zero answer } };

    fn from(answer: Result<Record, Refusal>) -> Loaded {
        Loaded {
            refusal: number_in(answer),
            state: answer.unwrap_or(Record::zero()),
        }
    }
}

// ---- load and preface

impl Trailer {
    // Load's refusal: the file's, then 6.
    #[tactic(auto, unfolding(crate::specs::Load::load_refusal, word::specs::Refusal::refuse))]
    fn check_load(self, file: &[u8], mem: &[u32], table: &[u32]) -> Result<(), Refusal>
        ensures { number result ≡ load_refusal self file.now mem.now table.now }
    {
        self.check_file(file)?;
        if !self.state.status().is_enough(mem, table) {
            return Err(Refusal::Lent);
        }
        Ok(())
    }
}

// Fills the first m words of mem and the first n of table from an image.
fn fill(image: &[u8], m: usize, n: usize, mem: &mut [u32], table: &mut [u32])
    requires { (m ≤ length mem.old) × (n ≤ length table.old) × (4 * m ≤ length image.now) }
    ensures { (mem.new ≡ filled m image.now mem.old)
        × (table.new ≡ filled n (drop (4 * m) image.now) table.old) }
{
    read_words(image, &mut mem[..m]);
    read_words(&image[4 * m..], &mut table[..n]);
}

// The lent memory and table are two slices here and below, as C lends them.
pub fn load(file: &[u8], mem: &mut [u32], table: &mut [u32]) -> Result<Record, Refusal>
    ensures { LoadPromise file.now mem.old table.old (number result) (at_exit (loaded_or_zero result) mem.new table.new) }
{
    let t = read_trailer(file);
    t.check_load(file, mem, table)?;
    let r = t.state;
    let at = t.start_in(file);
    fill(&file[at..], r.m as usize, table_words(r.n), mem, table);
    Ok(r)
}

// The front of the caller's own file, all before the first memory byte.
pub fn preface(file: &[u8]) -> &[u8]
    ensures { result.now ≡ preface_of file.now }
{
    let t = read_trailer(file);
    if t.check_file(file).is_err() {
        return &file[..0];
    }
    &file[..t.start_in(file)]
}

// ---- save

// Writes the image of the M words mem and the 9 N words table at the front of out: the table right after
// the memory words, then the trailer.
fn write_image(r: Record, mem: &[u32], table: &[u32], out: &mut [u8])
    requires { (length mem.now ≡ r.m) × (length table.now ≡ table_words r.n) × (back_of newest r ≤ length out.old) × (back_of newest r < 2 ^ 32) }
    ensures { out.new ≡ image newest (record { state = r; words = mem.now; links = table.now }) ++ drop (back_of newest r) out.old }
{
    let at = 4 * mem.len();
    let end = at + 4 * table.len();
    write_words(mem, out);
    write_words(table, &mut out[at..]);
    write_trailer(r, &mut out[end..]);
}

// Save's refusal; and the bounds of save's arguments, here where the types give them.
fn check_save(r: Record, mem: &[u32], table: &[u32], out: &[u8]) -> Result<(), Refusal>
    ensures { SaveDecided (at_entry r mem.now table.now) out.now (number result) }
{
    if r.has_bad_sizes(mem, table) {
        return Err(Refusal::Sizes);
    }
    if out.len() < NEWEST.back_of(r) {
        return Err(Refusal::Output);
    }
    Ok(())
}

pub fn save(r: Record, mem: &[u32], table: &[u32], out: &mut [u8]) -> Result<(), Refusal>
    ensures { SavePromise (at_entry r mem.now table.now) out.old (number result) out.new }
{
    check_save(r, mem, table, out)?;
    let m = r.m as usize;
    let links = table_words(r.n);
    write_image(r, &mem[..m], &table[..links], out);
    Ok(())
}
