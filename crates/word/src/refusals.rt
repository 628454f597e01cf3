// Refusals: each by its number, and tests that lead to one.
ghost use Rattle.std.specs.Prelude.{◌≡◌, not};
ghost use Rattle.word.specs.Refusal.{number_of, number, refuse};

// Why a call is refused. `as u32` gives the number, which is never 0.
#[derive(Clone, Copy, Debug, PartialEq, Eq)]
pub enum Refusal {
    // of a file
    FileLength = 1,
    FileKind,
    FileSizes,
    FileBack,
    FileCut,
    // too little is lent to load
    Lent,
    // of the code words and the links
    CodeWord,
    Link,
    // the output is too short
    Output,
    // sizes out of range, or lent memory or table too short for them
    Sizes,
    // of a turn: pc not below K; at finish, back at start; no instruction; waiting; an address; a coin; a node
    // or a link that it follows; next to start, back at finish
    Outside,
    End,
    Instruction,
    Waiting,
    Address,
    Coin,
    Node,
    Landing,
    // of a sample: two steps from the last one, or no sample
    Skipped,
    Sample,
    // no position is left this way
    Position,
    // of the table maker: it can't begin; a bound is exceeded; the branches of a qif differ
    Begin,
    Bound,
    Branches,
}

impl Refusal {
    pub fn number(self) -> u32
        ensures { result ≡ number_of self }
    {
        self as u32
    }
}

// Refused where the test fails.
#[tactic(auto, unfolding(crate::specs::Refusal::refuse))]
pub fn check(test: bool, refusal: Refusal) -> Result<(), Refusal>
    ensures { result ≡ refuse (not test) (Err refusal) (Ok tt) }
{
    if test { Ok(()) } else { Err(refusal) }
}

// The number in an answer, 0 where nothing is refused.
pub fn number_in<T: Copy>(answer: Result<T, Refusal>) -> u32
    ensures { result ≡ number answer }
{
    match answer {
        Ok(_) => 0,
        Err(refusal) => refusal.number(),
    }
}
