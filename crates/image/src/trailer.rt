// The trailer: the sizes and registers, the position, and the last four bytes.
ghost use Rattle.std.specs.Prelude.{◌≡◌, ◌++◌, ◌*◌, ◌^◌, ◌<◌, ◌≤◌, length, drop};
ghost use Rattle.word.specs.Refusal.{number};
ghost use Rattle.image.specs.Format.{bytes_of, newest, word_count, trailer_length, back_of, tail_words, trailer_words, trailer_bytes, record_in, trailer_of};
ghost use Rattle.image.specs.Load.{file_refusal, start_of};

use crate::kinds::{Kind, LAST, NEWEST, OLDEST, kind_of, last_bytes};
use crate::words::{first_bytes, read_word, read_words, rest_of, write_words};
use machine::Record;
use step::Status;
use step::table::table_words;
use word::refusals::Refusal;

// The most bytes of a file.
const MAX_FILE: usize = 65536;

// Where a trailer's words stand: back, M, K, N, the registers, qifv, qifw, and those that a kind has more:
// the position, low word first. By place, since a pattern that binds part of an array (regs @ ..) gets no proof.
const BACK: usize = 0;

const M: usize = 1;

const K: usize = 2;

const N: usize = 3;

const REGS: usize = 4;

const QIFV: usize = REGS + 16;

const QIFW: usize = QIFV + 1;

const MORE: usize = QIFW + 1;

const POSITION: usize = MORE;

// What a trailer says: the kind of its image, the back that is stored in it, and the record.
#[derive(Clone, Copy)]
pub(crate) struct Trailer {
    pub(crate) kind: Kind,
    pub(crate) back: u32,
    pub(crate) state: Record,
}

// ---- lengths

impl Kind {
    // The words of a trailer before its last bytes.
    fn word_count(self) -> usize
        ensures { result ≡ word_count self }
    {
        MORE + self.more as usize
    }

    // The bytes of a trailer.
    fn trailer_length(self) -> usize
        ensures { result ≡ trailer_length self }
    {
        4 * self.word_count() + LAST
    }

    // From the file's end to the first memory byte.
    pub(crate) fn back_of(self, r: Record) -> usize
        ensures { result ≡ back_of self r }
    {
        4 * (r.m as usize) + 4 * table_words(r.n) + self.trailer_length()
    }
}

// ---- reading

// The record of the trailer's words t; a word that t lacks is 0.
fn read_record(t: &[u8]) -> Record
    ensures { result ≡ record_in t.now }
{
    let mut regs = [0u32; 16];
    read_words(rest_of(t, 4 * REGS), &mut regs);
    let sizes = Status::sized(read_word(t, K), read_word(t, M), read_word(t, N));
    let at = sizes.with_node(read_word(t, QIFV), read_word(t, QIFW));
    let (low, high) = (read_word(t, POSITION), read_word(t, POSITION + 1));
    let bits = u64::from(low) + (u64::from(high) << 32);
    Record::new(at, regs).at_position(bits.cast_signed())
}

// What the trailer that ends the file says.
pub(crate) fn read_trailer(file: &[u8]) -> Trailer
    ensures { result ≡ trailer_of file.now }
{
    let kind = kind_of(file);
    let words = first_bytes(
        last_bytes(file, kind.trailer_length()),
        4 * kind.word_count(),
    );
    Trailer {
        kind,
        back: read_word(words, BACK),
        state: read_record(words),
    }
}

impl Trailer {
    // Where the first memory byte stands: back before the file's end.
    pub(crate) fn start_in(self, file: &[u8]) -> usize
        ensures { result ≡ start_of self file.now }
    {
        file.len().saturating_sub(self.kind.back_of(self.state))
    }

    // The file's refusal: 1, 2, 1 and 3 to 5, in this order.
    #[tactic(auto, unfolding(crate::specs::Load::file_refusal, word::specs::Refusal::refuse))]
    pub(crate) fn check_file(self, file: &[u8]) -> Result<(), Refusal>
        ensures { number result ≡ file_refusal self file.now }
    {
        let kind = self.kind;
        let r = self.state;
        if !(OLDEST.trailer_length()..=MAX_FILE).contains(&file.len()) {
            return Err(Refusal::FileLength);
        }
        if !kind.ends(file) {
            return Err(Refusal::FileKind);
        }
        if file.len() < kind.trailer_length() {
            return Err(Refusal::FileLength);
        }
        if !r.status().is_in_range() {
            return Err(Refusal::FileSizes);
        }
        let back = kind.back_of(r);
        if self.back as usize != back {
            return Err(Refusal::FileBack);
        }
        if file.len() < back {
            return Err(Refusal::FileCut);
        }
        Ok(())
    }
}

// ---- writing

// Writes the words after the registers at the front of out.
fn write_tail(r: Record, out: &mut [u8])
    requires { 4 * length (tail_words newest r) ≤ length out.old }
    ensures { out.new ≡ bytes_of (tail_words newest r) ++ drop (4 * length (tail_words newest r)) out.old }
{
    let bits = r.position.cast_unsigned();
    let (low, high) = ((bits % (1 << 32)) as u32, (bits >> 32) as u32);
    write_words(&[r.qifv, r.qifw, low, high], out);
}

// Writes the trailer's words at the front of out: each part into what is left of out after the last. That back fits a
// word is asked of each function that writes it, since `save` alone knows the sizes.
fn write_fields(r: Record, out: &mut [u8])
    requires { (4 * word_count newest ≤ length out.old) × (back_of newest r < 2 ^ 32) }
    ensures { out.new ≡ bytes_of (trailer_words newest r) ++ drop (4 * length (trailer_words newest r)) out.old }
{
    write_words(&[NEWEST.back_of(r) as u32, r.m, r.k, r.n], out);
    write_words(&r.regs, &mut out[4 * REGS..]);
    write_tail(r, &mut out[4 * QIFV..]);
}

// And the last bytes after them.
pub(crate) fn write_trailer(r: Record, out: &mut [u8])
    requires { (trailer_length newest ≤ length out.old) × (back_of newest r < 2 ^ 32) }
    ensures { out.new ≡ trailer_bytes newest r ++ drop (trailer_length newest) out.old }
{
    let end = 4 * NEWEST.word_count();
    write_fields(r, out);
    out[end..end + LAST].copy_from_slice(&NEWEST.last);
}
