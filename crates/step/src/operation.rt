// An instruction word attempted: its effect, or why it is refused. Nothing is written. Whatever every word goes through is
// inlined into the turn, which has several callers: as calls these functions halve the turns per second of a batch.
ghost use Rattle.std.specs.Prelude.{◌≡◌, ◌+◌, ◌-◌, ltb, get_or, take, not};
ghost use Rattle.std.specs.Int.Bits.{bit_xor};
ghost use Rattle.word.specs.Word.{pick, sub_word, with_bit};
ghost use Rattle.qins.specs.Decode.{operation, decode};
ghost use Rattle.step.specs.View.{view_in, links_in};
ghost use Rattle.step.specs.Table.{link, w};
ghost use Rattle.word.specs.Refusal.{refuse, refused_or};
ghost use Rattle.step.specs.Step.{Attempt, shifted, is_ready, is_allowed, when_ready, when_allowed, when_coin, child, enter, qif, pass, fiq, attempt};

use crate::table::{CF, CL, NX, PR, W, first_child, last_child};
use crate::{Access, Attempt, Direction, Effect, Seen, Status};
use qins::{
    Fields, alone, extended_word, names_both, names_none, names_one, names_three, names_two,
};
use word::refusals::{Refusal, check};
use word::signed::is_less;

// ---- refusals

impl Status {
    fn ready(self) -> Result<(), Refusal>
        ensures { result ≡ refuse (not (is_ready self)) (Err Refusal.Waiting) (Ok tt) }
    {
        check(self.qifw == 0, Refusal::Waiting)
    }

    fn allows(self, x: Access, i: u32) -> Result<(), Refusal>
        ensures { result ≡ refuse (not (is_allowed x self i)) (Err Refusal.Address) (Ok tt) }
    {
        let allowed = match x {
            Access::Copy => i < self.m,
            Access::Exchange => self.k <= i && i < self.m,
        };
        check(allowed, Refusal::Address)
    }
}

impl Seen<'_> {
    // ---- changes of registers and of memory: a function of two or three lines for each kind. One over all would take a
    // closure for what differs, which is all that each line says.

    #[tactic(auto, unfolding(word::specs::Refusal::refuse))]
    fn write(self, a: usize, v: u32) -> Attempt
        ensures { result ≡ when_ready self.entry.at (Ok (Effect.Write a v)) }
    {
        self.at.ready()?;
        Ok(Effect::Write(a, v))
    }

    // A register exchanged with the word at i.
    #[tactic(auto, unfolding(word::specs::Refusal::refuse))]
    fn exchange(self, a: usize, i: u32) -> Attempt
        ensures { result ≡ when_ready self.entry.at (when_allowed Access.Exchange self.entry.at i (Ok (Effect.SwapWord a i))) }
    {
        self.at.ready()?;
        self.at.allows(Access::Exchange, i)?;
        Ok(Effect::SwapWord(a, i))
    }

    // The word at i xored into a register.
    #[tactic(auto, unfolding(word::specs::Refusal::refuse))]
    fn fetch(self, a: usize, i: u32) -> Attempt
        ensures { result ≡ when_ready self.entry.at (when_allowed Access.Copy self.entry.at i
            (Ok (Effect.Write a (bit_xor (get_or self.entry.regs.now a 0) (get_or (take self.entry.at.m self.entry.mem.now) i 0))))) }
    {
        self.at.ready()?;
        self.at.allows(Access::Copy, i)?;
        Ok(Effect::Write(a, self.reg(a) ^ self.word(i)))
    }

    #[tactic(auto, unfolding(word::specs::Refusal::refuse))]
    fn nothing(self) -> Attempt
        ensures { result ≡ when_ready self.entry.at (Ok Effect.Nothing) }
    {
        self.at.ready()?;
        Ok(Effect::Nothing)
    }

    fn xor(self, a: usize, v: u32) -> Attempt
        ensures { result ≡ when_ready self.entry.at (Ok (Effect.Write a (bit_xor (get_or self.entry.regs.now a 0) v))) }
    {
        self.write(a, self.reg(a) ^ v)
    }

    fn shift(self, d: Direction, a: usize, v: u32) -> Attempt
        ensures { result ≡ when_ready self.entry.at (Ok (Effect.Write a (shifted d (get_or self.entry.regs.now a 0) v))) }
    {
        self.write(a, d.shift(self.reg(a), v))
    }

    fn negate(self, a: usize) -> Attempt
        ensures { result ≡ when_ready self.entry.at (Ok (Effect.Write a (sub_word 0 (get_or self.entry.regs.now a 0)))) }
    {
        self.write(a, word::sub_word(0, self.reg(a)))
    }

    // Two registers are exchanged.
    #[tactic(auto, unfolding(word::specs::Refusal::refuse))]
    fn swap(self, a: usize, b: usize) -> Attempt
        ensures { result ≡ when_ready self.entry.at (Ok (Effect.WriteTwo a (get_or self.entry.regs.now b 0) b (get_or self.entry.regs.now a 0))) }
    {
        self.at.ready()?;
        Ok(Effect::WriteTwo(a, self.reg(b), b, self.reg(a)))
    }

    #[tactic(auto, unfolding(word::specs::Refusal::refuse))]
    fn swap_bits(self, a: usize, b: usize) -> Attempt
        ensures { result ≡ when_ready self.entry.at (Ok (Effect.WriteTwo a (with_bit (get_or self.entry.regs.now a 0) (get_or self.entry.regs.now b 0))
            b (with_bit (get_or self.entry.regs.now b 0) (get_or self.entry.regs.now a 0)))) }
    {
        self.at.ready()?;
        let x = self.reg(a);
        let y = self.reg(b);
        Ok(Effect::WriteTwo(a, word::with_bit(x, y), b, word::with_bit(y, x)))
    }

    // ---- qif, waiting and fiq

    // From the present node to its child u for coin x.
    #[tactic(auto, unfolding(word::specs::Refusal::refuse, crate::specs::Step::enter))]
    fn enter(self, x: u32, u: u32) -> Attempt
        ensures { result ≡ enter (links_in self.entry) self.entry.at x u }
    {
        check(
            self.is_paired(self.at.qifv, first_child(x), u, CF),
            Refusal::Node,
        )?;
        Ok(Effect::SetNode(u, self.link(u, W)))
    }

    // The present node is v's first child for coin x, and the wait count is at most its own.
    #[tactic(auto, unfolding(word::specs::Refusal::refuse, crate::specs::Step::child))]
    fn is_child(self, x: u32, v: u32) -> Result<(), Refusal>
        ensures { (rest : Attempt) → refused_or result rest ≡ child (links_in self.entry) self.entry.at x v rest }
    {
        check(
            self.is_paired(v, first_child(x), self.at.qifv, CF),
            Refusal::Node,
        )?;
        if self.link(self.at.qifv, W) < self.at.qifw {
            return Err(Refusal::Waiting);
        }
        Ok(())
    }

    // One cycle more to wait, or out of the qif's node to v.
    fn waits_or_leaves(self, v: u32) -> Effect
        ensures { result ≡ pick (ltb self.entry.at.qifw (link (links_in self.entry) self.entry.at.n self.entry.at.qifv w))
            (Effect.SetNode self.entry.at.qifv (self.entry.at.qifw + 1)) (Effect.SetNode v 0) }
    {
        let at = self.at;
        if at.qifw < self.link(at.qifv, W) {
            Effect::SetNode(at.qifv, at.qifw + 1)
        } else {
            Effect::SetNode(v, 0)
        }
    }

    #[tactic(auto, unfolding(crate::specs::Step::qif))]
    #[inline(always)]
    fn qif(self, d: Direction, x: u32) -> Attempt
        ensures { result ≡ qif (links_in self.entry) d self.entry.at x }
    {
        let at = self.at;
        match d {
            Direction::Forward if at.qifw == 0 => self.enter(x, self.link(at.qifv, first_child(x))),
            Direction::Forward => {
                self.is_child(x, self.link(at.qifv, CF))?;
                Ok(Effect::SetNode(at.qifv, at.qifw.saturating_sub(1)))
            }
            Direction::Back => {
                let v = self.link(at.qifv, CF);
                self.is_child(x, v)?;
                Ok(self.waits_or_leaves(v))
            }
        }
    }

    // From node v, p's last child for coin x, to u, next to p; y is the one that it leads to.
    #[tactic(auto, unfolding(word::specs::Refusal::refuse, crate::specs::Step::pass))]
    #[inline(always)]
    fn pass(self, x: u32, v: u32, p: u32, u: u32, y: u32) -> Attempt
        ensures { result ≡ pass (links_in self.entry) self.entry.at x v p u y }
    {
        let last = self.is_paired(p, last_child(x), v, CL);
        check(last && self.is_paired(p, NX, u, PR), Refusal::Node)?;
        Ok(Effect::SetNode(y, self.at.qifw))
    }

    #[tactic(auto, unfolding(crate::specs::Step::fiq))]
    #[inline(always)]
    fn fiq(self, d: Direction, x: u32) -> Attempt
        ensures { result ≡ fiq (links_in self.entry) d self.entry.at x }
    {
        let here = self.at.qifv;
        match d {
            Direction::Forward => {
                let p = self.link(here, CL);
                let u = self.link(p, NX);
                self.pass(x, here, p, u, u)
            }
            Direction::Back => {
                let p = self.link(here, PR);
                let v = self.link(p, last_child(x));
                self.pass(x, v, p, here, v)
            }
        }
    }

    #[tactic(auto, unfolding(word::specs::Refusal::refuse))]
    #[inline(always)]
    fn qif_by(self, d: Direction, a: usize) -> Attempt
        ensures { result ≡ when_coin (get_or self.entry.regs.now a 0) (qif (links_in self.entry) d self.entry.at (get_or self.entry.regs.now a 0)) }
    {
        let x = self.reg(a);
        check(x <= 1, Refusal::Coin)?;
        self.qif(d, x)
    }

    #[tactic(auto, unfolding(word::specs::Refusal::refuse))]
    #[inline(always)]
    fn fiq_by(self, d: Direction, a: usize) -> Attempt
        ensures { result ≡ when_ready self.entry.at (when_coin (get_or self.entry.regs.now a 0) (fiq (links_in self.entry) d self.entry.at (get_or self.entry.regs.now a 0))) }
    {
        let x = self.reg(a);
        self.at.ready()?;
        check(x <= 1, Refusal::Coin)?;
        self.fiq(d, x)
    }
}

// ---- every instruction word, by its fields. It is executed as it is decoded: the operation that
// decode gives is not built, which a turn would pay for.

impl Seen<'_> {
    #[tactic(auto, unfolding(qins::specs::Decode::operation, qins::specs::Decode::line, crate::specs::Step::attempt, crate::specs::Step::value))]
    #[inline(always)]
    fn unib(self, f: Fields) -> Attempt
        ensures { (d : Direction) → result ≡ attempt (links_in self.entry) d (operation 33 f.a f.b f.i) (view_in self.entry) }
    {
        let Fields { a, b, i, .. } = f;
        match i {
            256 if names_both(a, b) => self.xor(b, self.reg(a) % 2),
            512 if names_both(a, b) => self.swap_bits(a, b),
            _ => Err(Refusal::Instruction),
        }
    }

    #[tactic(auto, unfolding(qins::specs::Decode::operation, qins::specs::Decode::line, crate::specs::Step::attempt, crate::specs::Step::value))]
    #[inline(always)]
    fn ari(self, f: Fields) -> Attempt
        ensures { (d : Direction) → result ≡ attempt (links_in self.entry) d (operation 34 f.a f.b f.i) (view_in self.entry) }
    {
        let Fields { a, b, i, .. } = f;
        match i {
            256 if names_two(a, b) => self.xor(a, word::sub_word(0, self.reg(b))),
            512 if names_two(a, b) => self.xor(a, !self.reg(b)),
            _ => Err(Refusal::Instruction),
        }
    }

    #[tactic(auto, unfolding(qins::specs::Decode::operation, qins::specs::Decode::line, crate::specs::Step::attempt, crate::specs::Step::value))]
    #[inline(always)]
    fn arib(self, f: Fields) -> Attempt
        ensures { (d : Direction) → result ≡ attempt (links_in self.entry) d (operation 35 f.a f.b f.i) (view_in self.entry) }
    {
        let Fields { a, b, i, .. } = f;
        let c = (i / 4096) as usize;
        if !names_three(a, b, c) {
            return Err(Refusal::Instruction);
        }
        let x = self.reg(b);
        let y = self.reg(c);
        match i % 4096 {
            256 => self.xor(a, word::add_word(x, y)),
            512 => self.xor(a, word::mul_word(x, y)),
            768 => self.xor(a, word::div_word(x, y)),
            1024 => self.xor(a, u32::from(x == y)),
            1280 => self.xor(a, u32::from(is_less(x, y))),
            _ => Err(Refusal::Instruction),
        }
    }

    #[tactic(auto, unfolding(qins::specs::Decode::operation, qins::specs::Decode::line, crate::specs::Step::attempt, crate::specs::Step::value))]
    #[inline(always)]
    fn by_fields(self, d: Direction, f: Fields) -> Attempt
        ensures { result ≡ attempt (links_in self.entry) d (operation f.o f.a f.b f.i) (view_in self.entry) }
    {
        let Fields { o, a, b, i } = f;
        match o {
            1 if names_one(a, b) => self.exchange(a, i),
            2 if names_one(a, b) => self.xor(a, i),
            3 if names_one(a, b) => self.shift(d, a, i),
            4 if names_one(a, b) => self.shift(d.flip(), a, i),
            5 if names_none(a, b) => self.xor(1, extended_word(i)),
            6 if names_one(a, b) => self.xor(
                1,
                if self.reg(a) == 0 {
                    extended_word(i)
                } else {
                    0
                },
            ),
            7 if names_one(a, b) => self.xor(
                1,
                if self.reg(a) == 0 {
                    0
                } else {
                    extended_word(i)
                },
            ),
            16 if alone(names_two(a, b), i) => self.exchange(a, self.reg(b)),
            17 if alone(names_two(a, b), i) => self.fetch(a, self.reg(b)),
            18 if alone(names_both(a, b), i) => self.swap(a, b),
            19 if alone(names_two(a, b), i) => self.xor(a, self.reg(b)),
            20 if alone(names_two(a, b), i) => self.shift(d, a, self.reg(b)),
            21 if alone(names_two(a, b), i) => self.shift(d.flip(), a, self.reg(b)),
            22 if alone(names_one(a, b), i) => self.negate(a),
            23 if alone(names_one(a, b), i) => self.swap(a, 1),
            24 if alone(names_one(a, b), i) => self.qif_by(d, a),
            25 if alone(names_one(a, b), i) => self.fiq_by(d, a),
            26 | 27 if alone(names_none(a, b), i) => self.nothing(),
            32 if i == 256 && names_one(a, b) => self.xor(a, 1),
            33 => self.unib(f),
            34 => self.ari(f),
            35 => self.arib(f),
            _ => Err(Refusal::Instruction),
        }
    }

    // What the word w would do, or why it is refused.
    #[inline(always)]
    #[tactic(auto, unfolding(qins::specs::Decode::decode))]
    pub fn attempt(self, d: Direction, w: u32) -> Attempt
        ensures { result ≡ attempt (links_in self.entry) d (decode w) (view_in self.entry) }
    {
        self.by_fields(d, Fields::from(w))
    }
}
