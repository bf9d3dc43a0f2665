//! Sums of numbers of 128 bits whose partial sums may pass 128 bits.

ghost use Rattle.std.specs.Prelude.{◌≡◌, ◌<◌, ◌≤◌, ◌+◌, ◌^◌, pos, ◌+ℤ◌, ◌-ℤ◌, ◌≤ℤ◌, ◌<ℤ◌, unsigned_abs, FitsSigned};
ghost use Rattle.std.specs.Int.{w128};
ghost use Rattle.std.specs.Option.{SomeIff};
ghost use Rattle.sc_base.specs.Integers.{lowest};
ghost use Rattle.sc_base.specs.Totals.{amount};

/// A sum of numbers of 128 bits that may itself have more: a rest, and how often 2^128 is to be added to it.
#[derive(Clone, Copy)]
pub struct Total {
    pub rest: i128,
    pub turns: i128,
}

/// The sum of two numbers, less 2^128.
fn lowered(a: i128, b: i128) -> i128
    requires first { pos 0 ≤ℤ a }
    requires second { pos 0 ≤ℤ b }
    requires past { pos (2 ^ 127) ≤ℤ (a +ℤ b) }
    ensures { result ≡ (a +ℤ b) -ℤ pos (2 ^ 128) }
{
    (a + i128::MIN) + (b + i128::MIN)
}

/// The sum of two numbers, and 2^128.
fn raised(a: i128, b: i128) -> i128
    requires first { a <ℤ pos 0 }
    requires second { b <ℤ pos 0 }
    requires past { (a +ℤ b) <ℤ lowest }
    ensures { result ≡ (a +ℤ b) +ℤ pos (2 ^ 128) }
{
    (a - i128::MIN) + (b - i128::MIN)
}

/// One turn more.
fn more_one(turns: i128) -> i128
    requires { unsigned_abs turns < 2 ^ 100 }
    ensures next { result ≡ turns +ℤ pos 1 }
    ensures size { unsigned_abs result ≤ unsigned_abs turns + 1 }
{
    turns + 1
}

/// One turn less.
fn less_one(turns: i128) -> i128
    requires { unsigned_abs turns < 2 ^ 100 }
    ensures next { result ≡ turns -ℤ pos 1 }
    ensures size { unsigned_abs result ≤ unsigned_abs turns + 1 }
{
    turns - 1
}

impl Total {
    /// Nothing.
    pub fn zero() -> Total
        ensures amount { amount result ≡ pos 0 }
        ensures turns { unsigned_abs result.turns ≡ 0 }
    {
        Total { rest: 0, turns: 0 }
    }

    /// The sum with one more number. As many as 2^100 numbers may be added.
    #[tactic(auto, using(crate::proofs::Turns::one_more, crate::proofs::Turns::one_less))]
    pub fn plus(self, number: i128) -> Total
        requires { unsigned_abs self.turns < 2 ^ 100 }
        ensures amount { amount result ≡ amount self +ℤ number }
        ensures turns { unsigned_abs result.turns ≤ unsigned_abs self.turns + 1 }
    {
        match self.rest.checked_add(number) {
            Some(rest) => Total {
                rest,
                turns: self.turns,
            },
            None if number < 0 => Total {
                rest: raised(self.rest, number),
                turns: less_one(self.turns),
            },
            None => Total {
                rest: lowered(self.rest, number),
                turns: more_one(self.turns),
            },
        }
    }

    /// The sum, or nothing exactly where it passes 128 bits.
    pub fn whole(self) -> Option<i128>
        ensures { SomeIff result (FitsSigned w128 (amount self)) (amount self) }
    {
        if self.turns == 0 {
            Some(self.rest)
        } else {
            None
        }
    }
}
