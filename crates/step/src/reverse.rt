// What the direction changes.
ghost use Rattle.std.specs.Prelude.{◌≡◌};
ghost use Rattle.step.specs.View.{flip, by_way};
ghost use Rattle.step.specs.Step.{shifted};

use crate::Direction;

impl Direction {
    pub fn flip(self) -> Direction
        ensures { result ≡ flip self }
    {
        match self {
            Direction::Forward => Direction::Back,
            Direction::Back => Direction::Forward,
        }
    }

    // One thing forward, another back.
    pub fn pick<T: Copy>(self, forward: T, back: T) -> T
        ensures { result ≡ by_way self forward back }
    {
        match self {
            Direction::Forward => forward,
            Direction::Back => back,
        }
    }

    // x plus v, or less v on the way back.
    #[tactic(auto, unfolding(word::specs::Word::add_word, word::specs::Word::sub_word))]
    pub fn shift(self, x: u32, v: u32) -> u32
        ensures { result ≡ shifted self x v }
    {
        match self {
            Direction::Forward => x.wrapping_add(v),
            Direction::Back => x.wrapping_sub(v),
        }
    }
}
