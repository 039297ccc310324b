//! The numbers drawn from a seed.
ghost use Rattle.std.specs.Prelude.{◌≡◌, ◌<◌, ◌≤◌};
ghost use Rattle.draws.specs.Numbers.{number_after_draw, drawn_below};

use std::marker::Model;

/// What the number held is multiplied by at each draw.
const MULTIPLIER: u64 = 6_364_136_223_846_793_005;

/// What is then added to it.
const INCREMENT: u64 = 1_442_695_040_888_963_407;

/// How many of its low bits, which repeat soon, a draw leaves out.
const DROPPED_BITS: u32 = 33;

/// Numbers drawn from a seed by a linear congruential generator modulo 2^64.
#[derive(Clone, Copy, Debug)]
pub struct Draws {
    // What the last draw left, or the seed.
    number: u64,
}

impl Model for Draws {
    ghost use Rattle.std.specs.Prelude.{ℕ};

    ghost Value = { ℕ };

    ghost view = { λ d. d.number };

    ghost inverse = { λ number. record { number = number } };
}

impl Draws {
    /// The draws of a seed. It takes no memory.
    pub fn new(seed: u64) -> Draws
        ensures { result ≡ seed }
    {
        Draws { number: seed }
    }

    /// Draws a number below `n`.
    #[tactic(auto, unfolding(crate::specs::Numbers::number_after_draw, crate::specs::Numbers::drawn_below))]
    pub fn below(&mut self, n: u64) -> u64
        requires { 1 ≤ n }
        ensures drawn { result ≡ drawn_below n self.old }
        ensures below { result < n }
        ensures number { self.new ≡ number_after_draw self.old }
    {
        self.number = self.number.wrapping_mul(MULTIPLIER).wrapping_add(INCREMENT);
        (self.number >> DROPPED_BITS) % n
    }
}
