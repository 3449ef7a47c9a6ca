//! The shift register that gives patterns.

use std::alloc::{AllocError, Global};

// A shift register of 15 stages.
#[derive(Drop)]
struct Register {
    state: u16,
}

impl Register {
    // Its first state for a seed and a leaf.
    fn new(seed: u32, leaf: u32) -> Register {
        let start = (64 * u64::from(seed) + u64::from(leaf)) % 32_767;
        Register {
            state: (start + 1) as u16,
        }
    }

    // Gives out the last stage, and takes in the sum of the last two.
    fn bit(&mut self) -> u8 {
        let last = self.state / 16_384 % 2;
        let before = self.state / 8_192 % 2;
        self.state = self.state % 16_384 * 2 + (last + before) % 2;
        last as u8
    }

    // The next eight bits.
    fn byte(&mut self) -> u8 {
        let mut byte = 0u8;
        for _ in 0..8 {
            byte = byte % 128 * 2 + self.bit() % 2;
        }
        byte
    }
}

/// Adds so many bytes of the register for a seed and a leaf.
pub fn add_pattern(
    into: &mut Vec<u8>,
    seed: u32,
    leaf: u32,
    bytes: usize,
) -> Result<(), AllocError> {
    let mut register = Register::new(seed, leaf);
    for _ in 0..bytes {
        into.push(register.byte())?;
    }
    Ok(())
}
