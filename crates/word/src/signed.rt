// Words compared as signed; and how large a signed number of 64 bits is.
ghost use Rattle.std.specs.Prelude.{◌≡◌};
ghost use Rattle.std.specs.Int.Signed.{mag};
ghost use Rattle.word.specs.Word.{is_less};

// a is less than b, both two's complement.
pub fn is_less(a: u32, b: u32) -> bool
    ensures { result ≡ is_less a b }
{
    a.cast_signed() < b.cast_signed()
}

// p or, below 0, -1 - p, as the kit has it. A public name, which nothing calls now: `unsigned_abs` is another number
// below 0.
pub fn magnitude(p: i64) -> u64
    ensures { result ≡ mag p }
{
    if 0 <= p {
        return p as u64;
    }
    (-1 - p) as u64
}
