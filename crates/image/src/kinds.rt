// Kinds of image.
ghost use Rattle.std.specs.Prelude.{◌≡◌};
ghost use Rattle.word.specs.Lists.{same};
ghost use Rattle.image.specs.Format.{last_bytes, kind_of};

// A kind of image: its last four bytes, and the words that its trailer has more than the first kind's.
// A row and no enum, so that a new kind is one more row here and in specs/Format, and not a line in each of an enum's methods.
#[derive(Clone, Copy)]
pub(crate) struct Kind {
    pub(crate) last: [u8; 4],
    pub(crate) more: u32,
}

const QRM1: Kind = Kind {
    last: *b"QRM1",
    more: 0,
};

// With the position.
const QRM2: Kind = Kind {
    last: *b"QRM2",
    more: 2,
};

// Newest first: save writes the newest, load takes all.
const KINDS: [Kind; 2] = [QRM2, QRM1];

pub(crate) const NEWEST: Kind = QRM2;

pub(crate) const OLDEST: Kind = QRM1;

// How many bytes tell the kind.
pub(crate) const LAST: usize = 4;

// The last n bytes, all where there are fewer.
pub(crate) fn last_bytes(s: &[u8], n: usize) -> &[u8]
    ensures { result.now ≡ last_bytes n s.now }
{
    &s[s.len().saturating_sub(n)..]
}

impl Kind {
    // Whether the file's last bytes are those of the kind.
    pub(crate) fn ends(self, file: &[u8]) -> bool
        ensures { result ≡ same (last_bytes 4 file.now) self.last }
    {
        file.ends_with(&self.last)
    }
}

// The kind with the file's last bytes, the oldest where there is none.
pub(crate) fn kind_of(file: &[u8]) -> Kind
    ensures { result ≡ kind_of file.now }
{
    KINDS
        .iter()
        .copied()
        .find(|kind| kind.ends(file))
        .unwrap_or(OLDEST)
}
