//! A generator whose numbers are known.

ghost use Rattle.std.specs.Prelude.{ℕ, ◌+◌, ◌%◌, ◌^◌};
ghost use Rattle.rand_core.specs.Steps.{stream_of, steps_u32};

use rand_core::Rng;
use rand_core::utils::{self, NextWord};
use std::marker::Model;

/// Each of its words, low byte first, is greater than the one before by 4 in each byte. It begins after the one that is given.
#[derive(Debug, Drop)]
pub struct Counting(pub u32);

impl Model for Counting {
    ghost Value = { ℕ };

    ghost view = { λ a. a.0 };
}

impl NextWord<u32> for Counting {
    ghost step = { λ s. ((s + 0x0404_0404) % 2 ^ 32, (s + 0x0404_0404) % 2 ^ 32) };

    fn next_word(&mut self) -> u32 {
        self.0 = self.0.wrapping_add(0x0404_0404);
        self.0
    }
}

impl Rng for Counting {
    ghost stream = { stream_of (steps_u32 (λ s. ((s + 0x0404_0404) % 2 ^ 32, (s + 0x0404_0404) % 2 ^ 32))) };

    fn next_u32(&mut self) -> u32 {
        self.next_word()
    }

    fn next_u64(&mut self) -> u64 {
        utils::next_u64_via_u32(self)
    }

    fn fill_bytes(&mut self, dst: &mut [u8]) {
        utils::fill_bytes_via_u32(self, dst)
    }
}
