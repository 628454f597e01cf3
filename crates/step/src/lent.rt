// Lent words, read and written at any index: out of range a read gives 0 and a write does nothing. The sixteen registers are
// lent so too, and these functions serve registers and memory alike.
ghost use Rattle.std.specs.Prelude.{◌≡◌, get_or, set, take};

pub fn look(words: &[u32], a: usize) -> u32
    ensures { result ≡ get_or words.now a 0 }
{
    words.get(a).copied().unwrap_or(0)
}

// By index: after get_mut a proof does not find that the other words stay.
pub fn put(words: &mut [u32], a: usize, v: u32)
    ensures { words.new ≡ set words.old a v }
{
    if a < words.len() {
        words[a] = v;
    }
}

// The first m words, all where there are fewer.
pub fn front(words: &[u32], m: u32) -> &[u32]
    ensures { result.now ≡ take m words.now }
{
    &words[..words.len().min(m as usize)]
}
