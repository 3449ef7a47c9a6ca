//! A search for frame alignment: which positions are given up, and whether the oldest is confirmed.
//! The bits themselves are the aligner's, which hands them in.

ghost use Rattle.std.specs.Prelude.{◌≡◌, ◌<◌, ◌≤◌, ◌+◌, ◌*◌, ◌↔◌, ℕ, List, Bool, [], ◌∷◌, ◌++◌, length, take, drop, IfOk, IfSome, IsSome};
ghost use Rattle.pdh_line.specs.Tracking.{is_confirmed as is_confirmed_in};
ghost use Rattle.pdh_phases.specs.Keeping.{StandsFor};
ghost use Rattle.pdh_align.specs.Signals.{Judges};
ghost use Rattle.pdh_align.specs.Searching.{Searches, Takes, GivesUp, IsRejected};

use crate::signals::{Signals, three_right};
use crate::starts::wrong_starts;
use pdh_packed::{BitRing, Packed, Word};
use pdh_phases::Phases;
use pdh_shape::Shape;
use std::alloc::{AllocError, Global};
use std::marker::Model;

/// What a search for alignment keeps of the bits since it began, beside those that are held.
#[derive(Drop)]
pub struct Search<S: Shape> {
    // the phases, where the shape's frame begins with its alignment signal
    phases: Option<Phases<S>>,
    // the phase of the oldest position that is held
    oldest: u32,
}

impl<S: Shape> Model for Search<S> {
    ghost use Rattle.std.specs.Prelude.{◌<◌, ◌↔◌, IsSome};
    ghost use Rattle.pdh_align.specs.Searching.{Sought, sought_of};

    ghost Value = { Sought };

    ghost view = { λ a. sought_of a.phases a.oldest };

    ghost invariant = { λ a. (a.oldest < S.LEN) × (IsSome a.phases ↔ (0 < S.SIGNAL)) };
}

// Takes the bits of a word.
fn push_word<S: Shape>(phases: &mut Phases<S>, word: Word)
    ensures { (before : List Bool) → StandsFor S.shape phases.old before → StandsFor S.shape phases.new (before ++ word) }
{
    for place in 0..word.len() {
        phases.push(word.get(place));
    }
}

// Takes the bits that are held.
fn push_held<S: Shape>(phases: &mut Phases<S>, held: &BitRing)
    ensures { (before : List Bool) → StandsFor S.shape phases.old before → StandsFor S.shape phases.new (before ++ held.now.bits) }
{
    let mut done = 0;
    while done < held.held() {
        let count = (held.held() - done).min(64);
        push_word::<S>(phases, held.read(done, count));
        done += count;
    }
}

impl<S: Shape> Search<S> {
    /// A search that has taken no bit; or it finds no memory.
    pub fn open(alloc: Global) -> Result<Search<S>, AllocError>
        ensures { IfOk result (λ search. Searches S.shape search [] []) }
    {
        if S::SIGNAL == 0 {
            return Ok(Search {
                phases: None,
                oldest: 0,
            });
        }
        let phases = Phases::open(alloc)?;
        Ok(Search {
            phases: Some(phases),
            oldest: 0,
        })
    }

    /// Takes a bit, which is held.
    pub fn push(&mut self, bit: bool)
        ensures { Takes S.shape self.old self.new (bit ∷ []) }
    {
        if let Some(phases) = &mut self.phases {
            phases.push(bit);
        }
    }

    /// Takes bits of a list, so many from a place on, which are held.
    pub fn push_all(&mut self, bits: &Packed, from: usize, count: usize)
        requires { from + count ≤ length bits.now.bits }
        ensures { Takes S.shape self.old self.new (take count (drop from bits.now.bits)) }
    {
        if let Some(phases) = &mut self.phases {
            phases.push_all(bits, from, count);
        }
    }

    /// Gives up the oldest positions, so many, and drops their bits.
    pub fn give_up(&mut self, count: u32)
        requires { count ≤ S.LEN }
        ensures { GivesUp S.shape self.old self.new count }
    {
        let slots = S::LEN;
        let oldest = self.oldest + count;
        if oldest >= slots {
            self.oldest = oldest - slots;
            return;
        }
        self.oldest = oldest;
    }

    /// Begins again at the oldest bit that is held.
    pub fn restart(&mut self, held: &BitRing)
        ensures { Searches S.shape self.new held.now.bits held.now.bits }
    {
        self.oldest = 0;
        if let Some(phases) = &mut self.phases {
            phases.clear();
            push_held::<S>(phases, held);
        }
    }

    /// Whether the three frames that are held confirm the oldest position.
    pub fn is_confirmed(&self, signals: &Signals, held: &BitRing) -> bool
        requires judges { Judges S.shape signals.now }
        requires whole { length held.now.bits ≡ 3 * S.LEN }
        ensures { (since : List Bool) → Searches S.shape self.now held.now.bits since
            → result ≡ is_confirmed_in S.shape held.now.bits }
    {
        match &self.phases {
            Some(phases) => phases.run_at(self.oldest) == 3,
            None => three_right::<S>(signals, held),
        }
    }

    /// At how many of the oldest positions, one after another and so many at most, the bits that are
    /// held, one fewer than three frames, tell that they won't be confirmed.
    pub fn rejected(&self, signals: &Signals, held: &BitRing, most: u32) -> u32
        requires judges { Judges S.shape signals.now }
        requires full { length held.now.bits + 1 ≡ 3 * S.LEN }
        ensures count { result ≤ most }
        ensures within { result ≤ S.LEN }
        ensures rejected { (since : List Bool) → Searches S.shape self.now held.now.bits since
            → (i : ℕ) → i < result → IsRejected S.shape held.now.bits i }
    {
        match &self.phases {
            Some(phases) => {
                // the run of a position's phase stays as it is while bits of so many others come
                let others = S::LEN - S::SIGNAL;
                let most = most.min(S::LEN - self.oldest).min(others);
                phases.below_three(self.oldest, most)
            }
            None => wrong_starts::<S>(&signals.slots, held, most.min(S::LEN)),
        }
    }

    /// The phases, where the shape's frame begins with its alignment signal.
    pub fn phases(&self) -> Option<&Phases<S>>
        ensures some { IsSome result ↔ (0 < S.SIGNAL) }
        ensures stands { IfSome result (λ phases. (held since : List Bool)
            → Searches S.shape self.now held since → StandsFor S.shape phases.now since) }
    {
        self.phases.as_ref()
    }
}
