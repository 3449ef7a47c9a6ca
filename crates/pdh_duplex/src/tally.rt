//! What an end keeps of the events of its top.

ghost use Rattle.std.specs.Prelude.{◌≡◌, fold};
ghost use Rattle.pdh_telling.specs.Top.{is_of_top};
ghost use Rattle.pdh_duplex.specs.Tallies.{counted_with, tally_none, tally_with};

use pdh_watch::{Event, Kind, Watch};

/// What is kept of the events of the top.
#[derive(Clone, Copy, Debug)]
pub struct Tally {
    /// Whether an alignment holds.
    pub aligned: bool,
    /// Whether the parity of a frame was wrong, since it was asked last.
    pub in_error: bool,
    /// How many alarms began. At `u64::MAX` the count stands.
    pub alarms: u64,
    /// How many far end block errors were told. At `u64::MAX` the count stands.
    pub febe: u64,
}

// Whether an event is one of the top, of this kind.
fn is_of_top(kind: Kind, event: &Event) -> bool
    ensures { result ≡ is_of_top kind event.now }
{
    event.path.depth == 0 && event.kind == kind
}

// A count of the events of the top of this kind, with one more event.
fn counted(kind: Kind, count: u64, event: &Event) -> u64
    ensures { result ≡ counted_with kind count event.now }
{
    if is_of_top(kind, event) {
        count.saturating_add(1)
    } else {
        count
    }
}

impl Tally {
    /// Before the first event.
    pub fn none() -> Tally
        ensures { result ≡ tally_none }
    {
        Tally {
            aligned: false,
            in_error: false,
            alarms: 0,
            febe: 0,
        }
    }

    // With one more event.
    fn with(self, event: &Event) -> Tally
        ensures { result ≡ tally_with self event.now }
    {
        let lost = is_of_top(Kind::LOST, event);
        let parity = is_of_top(Kind::PARITY, event);
        let path_parity = is_of_top(Kind::PATH_PARITY, event);
        Tally {
            aligned: is_of_top(Kind::ALIGNED, event) || (self.aligned && !lost),
            in_error: self.in_error || parity || path_parity,
            alarms: counted(Kind::ALARM_ON, self.alarms, event),
            febe: counted(Kind::FEBE, self.febe, event),
        }
    }
}

/// A watch that passes every event on to another, and keeps a tally of those of the top.
#[derive(Drop)]
pub struct Tallied<W: Watch> {
    pub watch: W,
    pub tally: Tally,
}

impl<W: Watch> Tallied<W> {
    /// The watch, without the tally.
    pub fn into_watch(self) -> W
        ensures { result ≡ self.watch }
    {
        self.watch
    }
}

impl<W: Watch> Watch for Tallied<W> {
    ghost use Rattle.std.proofs.Common.{refl, sym, ap, ◌∙◌};
    ghost use Rattle.std.proofs.lemmas.List.Sums.{fold-append};

    ghost saw = { λ a events b. W.saw a.watch events b.watch × (b.tally ≡ fold tally_with a.tally events) };

    ghost saw_nothing = { λ a. (W.saw_nothing a.watch, refl) };

    ghost saw_join = { λ a b c xs ys p q. (
      W.saw_join a.watch b.watch c.watch xs ys p.0 q.0,
      q.1 ∙ ap (λ tally. fold tally_with tally ys) p.1 ∙ sym (fold-append tally_with a.tally xs ys),
    ) };

    fn note(&mut self, event: &Event) {
        self.tally = self.tally.with(event);
        self.watch.note(event);
    }
}
