// The fields of an instruction word: what each word stands for is `decode` of specs/, and `step` executes a
// word as it decodes it.
#![tactic(auto)]

ghost use Rattle.std.specs.Prelude.{◌≡◌, ◌&&◌};
ghost use Rattle.qins.specs.Decode.{IsFields, extended, bare, names_none, names_one, names_two, names_both, names_three};

// The word of start, and of finish.
pub const START: u32 = 0x1A000000;

pub const FINISH: u32 = 0x1B000000;

// The fields of a word: its opcode, two registers and the low half.
#[derive(Clone, Copy)]
pub struct Fields {
    pub o: u32,
    pub a: usize,
    pub b: usize,
    pub i: u32,
}

impl From<u32> for Fields {
    ghost from_gives = { IsFields };

    fn from(w: u32) -> Fields {
        Fields {
            o: w / 16777216,
            a: (w / 1048576 % 16) as usize,
            b: (w / 65536 % 16) as usize,
            i: w % 65536,
        }
    }
}

// A 16-bit immediate with its sign. It takes every word, where a cast to 16 bits would ask for one that fits.
#[tactic(auto, unfolding(crate::specs::Decode::extended))]
pub fn extended_word(i: u32) -> u32
    ensures { result ≡ extended i }
{
    if i < 32768 {
        i
    } else {
        word::add_word(i, 4294901760)
    }
}

// Which registers a word names: none; a; a, changed, and b, read; a and b, both not pc.
pub fn names_none(a: usize, b: usize) -> bool
    ensures { result ≡ names_none a b }
{
    a == 0 && b == 0
}

pub fn names_one(a: usize, b: usize) -> bool
    ensures { result ≡ names_one a b }
{
    1 < a && b == 0
}

pub fn names_two(a: usize, b: usize) -> bool
    ensures { result ≡ names_two a b }
{
    1 < a && b != 1 && b != a
}

pub fn names_both(a: usize, b: usize) -> bool
    ensures { result ≡ names_both a b }
{
    names_two(a, b) && 1 < b
}

// a, changed, and b and c, read.
pub fn names_three(a: usize, b: usize, c: usize) -> bool
    ensures { result ≡ names_three a b c }
{
    names_two(a, b) && names_two(a, c) && c != b
}

// The test holds, and the low half is zero.
pub fn alone(test: bool, i: u32) -> bool
    ensures { result ≡ bare i && test }
{
    i == 0 && test
}
