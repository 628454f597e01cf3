// The wheel: encoder samples, each of which makes one turn or none.
#![tactic(auto)]

ghost use Rattle.std.specs.Prelude.{◌≡◌, ◌+◌, ◌^◌, ◌<◌, IfOk};
ghost use Rattle.word.specs.Refusal.{number};
ghost use Rattle.step.specs.View.{by_way};
ghost use Rattle.machine.specs.Lent.{at_entry, at_exit};
ghost use Rattle.wheel.specs.Samples.{byte_of};
ghost use Rattle.wheel.specs.Wheel.{counts_of, started, wheel_of, ended, moved, taken, RecordBounded, WheelPromise};

mod samples;

use machine::Record;
use samples::Sample;
use step::Direction;
use word::refusals::{Refusal, number_in};

// What the samples of a call came to: turns accepted forward and back, and turns refused; the last sample
// before any that ended the call, the given one if there is none; the refusal, 0 for none; and the new record.
// C has the refusal as a number: counts and record stand beside it, so this is no Result.
#[repr(C)]
#[derive(Clone, Copy)]
pub struct Wheeled {
    pub forward: u64,
    pub back: u64,
    pub refused: u64,
    pub last: u32,
    pub refusal: u32,
    pub state: Record,
}

// Memory and table are lent apart, as C lends them.
impl Wheeled {
    // A turn is counted by its direction, or as refused.
    fn turn(&mut self, d: Direction, mem: &mut [u32], table: &[u32])
        requires { self.old.forward + self.old.back + self.old.refused + 1 < 2 ^ 64 }
        ensures { wheel_of 0 self.new (at_exit self.new.state mem.new table.now)
            ≡ moved (by_way d 1 3) self.old.last (wheel_of 0 self.old (at_entry self.old.state mem.old table.now)) }
    {
        let turn = match d {
            Direction::Forward => self.state.forward(mem, table),
            Direction::Back => self.state.back(mem, table),
        };
        let Ok(state) = turn else {
            self.refused += 1;
            return;
        };
        self.state = state;
        match d {
            Direction::Forward => self.forward += 1,
            Direction::Back => self.back += 1,
        }
    }

    // The wheel moves from the last sample to this one, or stands still and is refused.
    #[tactic(auto, unfolding(crate::specs::Wheel::taken, word::specs::Refusal::refuse))]
    fn take(
        &mut self,
        last: Sample,
        byte: u8,
        mem: &mut [u32],
        table: &[u32],
    ) -> Result<Sample, Refusal>
        requires at { self.old.last ≡ byte_of last }
        requires room { self.old.forward + self.old.back + self.old.refused + 1 < 2 ^ 64 }
        ensures taken { wheel_of (number result) self.new (at_exit self.new.state mem.new table.now)
            ≡ taken byte (wheel_of 0 self.old (at_entry self.old.state mem.old table.now)) }
        ensures ok { IfOk result (λ s. self.new.last ≡ byte_of s) }
    {
        let next = Sample::try_from(byte)?;
        if let Some(d) = last.turn_to(next)? {
            self.turn(d, mem, table);
        }
        self.last = u32::from(byte);
        Ok(next)
    }

    // The samples up to the first that is refused, and that refusal.
    fn take_all(
        &mut self,
        given: u8,
        samples: &[u8],
        mem: &mut [u32],
        table: &[u32],
    ) -> Result<(), Refusal>
        requires start { counts_of self.old ≡ started given }
        requires bounds { RecordBounded self.old.state }
        ensures { WheelPromise given samples.now (at_entry self.old.state mem.old table.now) (ended (number result) (counts_of self.new)) (at_exit self.new.state mem.new table.now) }
    {
        let mut last = Sample::try_from(given)?;
        for byte in samples {
            last = self.take(last, *byte, mem, table)?;
        }
        Ok(())
    }
}

// Turns the machine as the samples say, up to the first that ends the call.
pub fn follow(r: Record, given: u8, samples: &[u8], mem: &mut [u32], table: &[u32]) -> Wheeled
    ensures { WheelPromise given samples.now (at_entry r mem.old table.now) (counts_of result) (at_exit result.state mem.new table.now) }
{
    let mut w = Wheeled {
        forward: 0,
        back: 0,
        refused: 0,
        last: u32::from(given),
        refusal: 0,
        state: r,
    };
    let ended = w.take_all(given, samples, mem, table);
    w.refusal = number_in(ended);
    w
}
