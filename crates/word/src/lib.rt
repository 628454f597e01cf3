// Arithmetic on words of 32 bits. Functions of their own over the library's methods: documents and must-fail edits name them,
// and each has the equation of its definition. No method gives `with_bit`.
#![tactic(auto)]

ghost use Rattle.std.specs.Prelude.{◌≡◌};
ghost use Rattle.word.specs.Word.{add_word, sub_word, mul_word, div_word, with_bit};

pub mod refusals;
pub mod signed;

#[tactic(auto, unfolding(crate::specs::Word::add_word))]
pub fn add_word(a: u32, b: u32) -> u32
    ensures { result ≡ add_word a b }
{
    a.wrapping_add(b)
}

#[tactic(auto, unfolding(crate::specs::Word::sub_word))]
pub fn sub_word(a: u32, b: u32) -> u32
    ensures { result ≡ sub_word a b }
{
    a.wrapping_sub(b)
}

#[tactic(auto, unfolding(crate::specs::Word::mul_word))]
pub fn mul_word(a: u32, b: u32) -> u32
    ensures { result ≡ mul_word a b }
{
    a.wrapping_mul(b)
}

// The quotient, 0 for divisor 0.
pub fn div_word(a: u32, b: u32) -> u32
    ensures { result ≡ div_word a b }
{
    a.checked_div(b).unwrap_or(0)
}

// a with bit 0 of b.
pub fn with_bit(a: u32, b: u32) -> u32
    ensures { result ≡ with_bit a b }
{
    a / 2 * 2 + b % 2
}
