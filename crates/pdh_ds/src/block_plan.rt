//! What tells a frame of subframes in blocks: its numbers, its overhead slots and its service bits.

ghost use Rattle.std.specs.Prelude.{◌≡◌, ◌<◌, ℕ, true, Bool, List};
ghost use Rattle.pdh_ds.specs.Blocks.{in_blocks, overhead_at, IsBlockPlan};
ghost use Rattle.pdh_ds.specs.declared.block_plan.BlockPlan.{BlockPlan};
ghost use Rattle.pdh_shape.specs.declared.role.Role.{Role};
ghost use Rattle.pdh_shape.specs.declared.role.Duty.{Duty};
ghost use Rattle.pdh_shape.specs.declared.role.Service.{Service};
ghost use Rattle.pdh_shape.specs.KeptLaws.{keeps_laws};

use crate::LossRule;
use pdh_shape::{Duty, Role, Service};

/// The numbers of a frame of subframes, one for each tributary, whose blocks each begin with an
/// overhead slot.
#[derive(Clone, Copy, Debug, PartialEq, Eq)]
pub struct BlockPlan {
    /// Slots in a frame.
    pub len: u32,
    /// Slots in a subframe.
    pub subframe: u32,
    /// Blocks in a subframe.
    pub blocks: u32,
    /// Slots in a block: an overhead slot and information slots.
    pub block: u32,
    /// Tributaries. A frame has as many subframes, and each controls the tributary of its number.
    pub tribs: u8,
    /// Copies of each tributary's justification control.
    pub copies: u8,
    /// The least number of bits of a tributary that a frame carries.
    pub low: u32,
    /// When alignment is lost.
    pub loss: LossRule,
}

/// Where a slot stands in a frame of subframes of blocks.
#[derive(Clone, Copy, Debug, PartialEq, Eq)]
pub struct BlockPlace {
    /// The subframe.
    pub subframe: u8,
    /// The block in the subframe.
    pub block: u8,
    /// The slot in the block: 0 is the overhead slot.
    pub index: u32,
}

/// A frame of subframes of blocks, told by its numbers, its overhead slots and its service bits.
pub trait InBlocks: Drop {
    ghost PLAN: { BlockPlan };

    /// The numbers.
    const PLAN: BlockPlan;

    ghost overhead: { ℕ → List Role };

    /// What the overhead slot of a block of a subframe carries.
    fn overhead(subframe: u8, block: u8) -> Role
        requires subframe { subframe < PLAN.tribs }
        requires block { block < PLAN.blocks }
        ensures { result ≡ overhead_at overhead subframe block };

    ghost inverted: { ℕ → Bool };

    /// Whether the bits of a tributary are inverted on the line.
    fn inverted(trib: u8) -> bool
        ensures { result ≡ inverted trib };

    ghost duty: { ℕ → Duty };

    /// What the service bit of a number tells.
    fn duty(number: u8) -> Duty
        ensures { result ≡ duty number };

    ghost service: { ℕ → Service → Bool → Bool };

    /// The service bit of a number.
    fn service(number: u8, say: &Service, odd: bool) -> bool
        ensures { result ≡ service number say.now odd };

    /// The numbers fit together.
    ghost is_plan: { IsBlockPlan PLAN };

    /// The frame keeps the laws of a shape.
    ghost lawful: { keeps_laws (in_blocks PLAN overhead inverted duty service) ≡ true };
}
