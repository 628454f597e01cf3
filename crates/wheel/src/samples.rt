// Samples of the encoder, and what the wheel does from one to the next.
ghost use Rattle.std.specs.Prelude.{◌≡◌};
ghost use Rattle.wheel.specs.Samples.{ReadsAs, byte_of, moves};
ghost use Rattle.wheel.specs.Wheel.{place, steps};

use step::Direction;
use word::refusals::Refusal;

// By the tracks that it reads, in their order on the circle: bytes 0, 1, 3 and 2.
#[derive(Clone, Copy, Debug, PartialEq, Eq)]
pub(crate) enum Sample {
    Neither,
    Low,
    Both,
    High,
}

impl TryFrom<u8> for Sample {
    type Error = Refusal;

    ghost try_from_gives = { ReadsAs };

    fn try_from(byte: u8) -> Result<Sample, Refusal> {
        match byte {
            0 => Ok(Sample::Neither),
            1 => Ok(Sample::Low),
            2 => Ok(Sample::High),
            3 => Ok(Sample::Both),
            _ => Err(Refusal::Sample),
        }
    }
}

impl Sample {
    // Where it stands on the circle.
    fn place(self) -> u32
        ensures { result ≡ place (byte_of self) }
    {
        self as u32
    }

    // One step along the circle is a turn forward, one against it a turn back, and none is no turn.
    #[tactic(auto, unfolding(word::specs::Word::sub_word))]
    pub(crate) fn turn_to(self, next: Sample) -> Result<Option<Direction>, Refusal>
        ensures { result ≡ moves (steps (byte_of self) (byte_of next)) }
    {
        match next.place().wrapping_sub(self.place()) % 4 {
            0 => Ok(None),
            1 => Ok(Some(Direction::Forward)),
            2 => Err(Refusal::Skipped),
            _ => Ok(Some(Direction::Back)),
        }
    }
}
