// Words of 32 bits as little-endian bytes.
ghost use Rattle.std.specs.Prelude.{◌≡◌, ◌++◌, ◌+◌, ◌*◌, ◌^◌, ◌<◌, ◌≤◌, length, get_or, take, drop};
ghost use Rattle.image.specs.Format.{bytes_of, word_at, words_of};

// Byte j, 0 where there is none. One call of the library, as step's `look` is at words: no plainer as one function over both.
fn byte_at(s: &[u8], j: usize) -> u8
    ensures { result ≡ get_or s.now j 0 }
{
    s.get(j).copied().unwrap_or(0)
}

// The bytes from index a on, none where there are fewer.
pub(crate) fn rest_of(s: &[u8], a: usize) -> &[u8]
    ensures { result.now ≡ drop a s.now }
{
    s.get(a..).unwrap_or(&[])
}

// The first n bytes, all where there are fewer.
pub(crate) fn first_bytes(s: &[u8], n: usize) -> &[u8]
    ensures { result.now ≡ take n s.now }
{
    s.get(..n).unwrap_or(s)
}

// Word i, with 0 for a missing byte.
pub(crate) fn read_word(s: &[u8], i: usize) -> u32
    requires { i < 2 ^ 61 }
    ensures { result ≡ word_at s.now i }
{
    let j = 4 * i;
    u32::from_le_bytes([
        byte_at(s, j),
        byte_at(s, j + 1),
        byte_at(s, j + 2),
        byte_at(s, j + 3),
    ])
}

// Fills dst with the first words of src.
#[tactic(auto, unfolding(crate::specs::Format::words_of))]
pub(crate) fn read_words(src: &[u8], dst: &mut [u32])
    ensures { dst.new ≡ words_of (length dst.old) src.now }
{
    for (i, word) in dst.iter_mut().enumerate() {
        *word = read_word(src, i);
    }
}

// Writes all words of src at the front of out. By index: after chunks_exact_mut a proof knows nothing of out.
#[tactic(auto, unfolding(crate::specs::Format::bytes_of))]
pub(crate) fn write_words(src: &[u32], out: &mut [u8])
    requires { 4 * length src.now ≤ length out.old }
    ensures { out.new ≡ bytes_of src.now ++ drop (4 * length src.now) out.old }
{
    for (i, word) in src.iter().enumerate() {
        out[4 * i..4 * i + 4].copy_from_slice(&word.to_le_bytes());
    }
}
