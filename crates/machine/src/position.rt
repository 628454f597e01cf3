// The position: how far it may go, and where turns lead.
ghost use Rattle.std.specs.Prelude.{◌≡◌, ltb, ◌+◌, ◌-◌, ◌≤◌};
ghost use Rattle.word.specs.Word.{pick};
ghost use Rattle.machine.specs.Position.{advanced};
ghost use Rattle.machine.specs.InPlace.{room};

use step::Direction;

// The turns this way up to the last position.
pub(crate) fn room(d: Direction, p: i64) -> u64
    ensures { result ≡ room d p }
{
    d.pick(i64::MAX, i64::MIN).abs_diff(p)
}

// As many of n turns as there is room for.
pub(crate) fn limit(d: Direction, p: i64, n: u32) -> u32
    ensures { result ≡ pick (ltb (room d p) n) (room d p) n }
{
    room(d, p).min(u64::from(n)) as u32
}

// The position k turns further this way.
pub(crate) fn advance(d: Direction, k: u32, p: i64) -> i64
    requires { k ≤ room d p }
    ensures { result ≡ advanced d k p }
{
    match d {
        Direction::Forward => p + i64::from(k),
        Direction::Back => p - i64::from(k),
    }
}
