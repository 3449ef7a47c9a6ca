//! What the slots of a frame in blocks carry, by its plan.

// Frames of subframes of blocks, as ANSI T1.107 has them.
ghost use Rattle.std.specs.Prelude.{◌≡◌, ◌<◌};
ghost use Rattle.pdh_ds.specs.Blocks.{place_at, info_at as info_in_blocks, block_role as role_in_blocks, block_mark as mark_in_blocks, align_mark as align_mark_in, IsBlockPlan};

use crate::block_plan::BlockPlace;
use crate::{BlockPlan, InBlocks};
use pdh_shape::{Mark, Role};

/// Where a slot stands.
#[tactic(auto, using(crate::proofs::BlockLaws::subframe_below, crate::proofs::BlockLaws::block_below))]
fn place_of(plan: &BlockPlan, slot: u32) -> BlockPlace
    requires fits { IsBlockPlan plan.now }
    requires within { slot < plan.now.len }
    ensures is { result ≡ place_at plan.now slot }
    ensures subframe { result.subframe < plan.now.tribs }
    ensures block { result.block < plan.now.blocks }
{
    BlockPlace {
        subframe: (slot / plan.subframe) as u8,
        block: (slot % plan.subframe / plan.block) as u8,
        index: slot % plan.block,
    }
}

/// What an information slot carries: the tributaries in turn, or the justifiable slot.
fn info_role(plan: &BlockPlan, place: BlockPlace) -> Role
    requires subframe { place.subframe < plan.now.tribs }
    requires block { place.block < plan.now.blocks }
    requires index { 0 < place.index }
    ensures { result ≡ info_in_blocks plan.now place }
{
    let number = place.index - 1;
    if u32::from(place.block) == plan.blocks - 1 && number == u32::from(place.subframe) {
        Role::Just(place.subframe)
    } else {
        Role::Info((number % u32::from(plan.tribs)) as u8)
    }
}

/// What a slot carries.
#[tactic(auto, unfolding(crate::specs::Blocks::block_role))]
pub fn block_role<P: InBlocks>(slot: u32) -> Role
    requires { slot < P.PLAN.len }
    ensures { result ≡ role_in_blocks P.PLAN P.overhead slot }
{
    let place = place_of(&P::PLAN, slot);
    if place.index == 0 {
        P::overhead(place.subframe, place.block)
    } else {
        info_role(&P::PLAN, place)
    }
}

/// Which alignment slot a slot is: of those of the alignment signal, one that begins a subframe is
/// a multiframe slot, and any other a framing slot.
#[tactic(auto, unfolding(crate::specs::Blocks::block_mark))]
pub fn block_mark<P: InBlocks>(slot: u32) -> Mark
    requires { slot < P.PLAN.len }
    ensures { result ≡ mark_in_blocks P.PLAN P.overhead slot }
{
    match block_role::<P>(slot) {
        Role::Align(_) => align_mark(&P::PLAN, slot),
        _ => Mark::Other,
    }
}

/// Which alignment slot a slot of the alignment signal is.
#[tactic(auto, using(crate::proofs::BlockLaws::framing_below, crate::proofs::BlockLaws::framing_apart))]
fn align_mark(plan: &BlockPlan, slot: u32) -> Mark
    requires fits { IsBlockPlan plan.now }
    requires within { slot < plan.now.len }
    ensures { result ≡ align_mark_in plan.now slot }
{
    if slot % plan.subframe == 0 {
        Mark::Multi
    } else {
        Mark::Framing((slot / (plan.len / plan.loss.framing)) as u8)
    }
}
