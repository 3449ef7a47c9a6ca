//! What callers may rely on of sessions of two terminals.

ghost use Rattle.std.specs.Prelude.{◌≡◌, ◌-◌, ◌^◌, ℕ, min, List, [], ◌∷◌, count_by, IfOk};
ghost use Rattle.pdh_watch.specs.declared.kind.TheConstants.Kind.{FEBE};
ghost use Rattle.pdh_events.specs.Chain.{chain_events};
ghost use Rattle.pdh_telling.specs.Top.{is_of_top};
ghost use Rattle.pdh_script.specs.Scripts.{Row};
ghost use Rattle.pdh_chain.specs.Chains.{shapes_of};
ghost use Rattle.pdh_chain.specs.declared.chain.Chain.TheVariants.{C13};
ghost use Rattle.pdh_duplex.specs.Laws.{is_error_tick};
ghost use Rattle.pdh_duplex.specs.Session.{IsSetting, ends_of, events_of, setting_with};

use pdh_chain::Chain;
use pdh_duplex::{Duplex, an_undisturbed_line_tells_what_was_said, duplex};
use pdh_script::Script;
use pdh_watch::Watch;
use std::alloc::Global;

/// Each end counts the far end block errors that it was told itself.
pub fn febe_of_the_same_end<W: Watch, E: Watch>(
    alloc: Global,
    chain: Chain,
    seed: u64,
    frames: u64,
    to_east: &Script,
    to_west: &Script,
    west: W,
    east: E,
) -> Duplex<W, E>
    requires { IsSetting (setting_with chain seed frames to_east.now to_west.now) }
    ensures west { let z = setting_with chain seed frames to_east.now to_west.now in
        IfOk result.session (λ session. session.west_febe
        ≡ min (count_by (is_of_top FEBE) (chain_events (shapes_of chain) (ends_of z).west.heard.got)) (2 ^ 64 - 1)) }
    ensures east { let z = setting_with chain seed frames to_east.now to_west.now in
        IfOk result.session (λ session. session.east_febe
        ≡ min (count_by (is_of_top FEBE) (chain_events (shapes_of chain) (ends_of z).east.heard.got)) (2 ^ 64 - 1)) }
{
    duplex(alloc, chain, seed, frames, to_east, to_west, west, east)
}

/// An end counts each tick once in which the parity of a frame was wrong that it received.
pub fn error_tick_for_each_event<W: Watch, E: Watch>(
    alloc: Global,
    chain: Chain,
    seed: u64,
    frames: u64,
    to_east: &Script,
    to_west: &Script,
    west: W,
    east: E,
) -> Duplex<W, E>
    requires { IsSetting (setting_with chain seed frames to_east.now to_west.now) }
    ensures { let z = setting_with chain seed frames to_east.now to_west.now in
        IfOk result.session (λ session. session.west_errors ≡ (ends_of z).west.heard.errors) }
{
    duplex(alloc, chain, seed, frames, to_east, to_west, west, east)
}

/// A watch sees all events of what its end received, those of the top too.
pub fn watch_that_misses_the_top<W: Watch, E: Watch>(
    alloc: Global,
    chain: Chain,
    seed: u64,
    frames: u64,
    to_east: &Script,
    to_west: &Script,
    west: W,
    east: E,
) -> Duplex<W, E>
    requires { IsSetting (setting_with chain seed frames to_east.now to_west.now) }
    ensures { let z = setting_with chain seed frames to_east.now to_west.now in
        IfOk result.session (λ session. W.saw west (chain_events (shapes_of chain) (ends_of z).west.heard.got) result.west) }
{
    duplex(alloc, chain, seed, frames, to_east, to_west, west, east)
}

/// Of three ticks an end whose line isn't disturbed is told which of the first two were error ticks of the other.
pub fn last_error_tick_told()
    ensures { (seed : ℕ) (to_west : List Row) → let z = setting_with C13 seed 3 [] to_west in IsSetting z
        → count_by (is_of_top FEBE) (events_of z (ends_of z).east) ≡ count_by (is_error_tick z (λ ends. ends.west)) (0 ∷ 1 ∷ []) }
{
    an_undisturbed_line_tells_what_was_said();
}
