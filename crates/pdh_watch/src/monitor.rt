//! Monitors as a trait.

ghost use Rattle.std.specs.Prelude.{◌≡◌, ◌≤◌, [], ◌∷◌, length, take};
ghost use Rattle.pdh_watch.specs.Monitors.{State, Saw, says};

use crate::{Event, Kind};

/// Keeps something of the events that it wants, and says it in a line.
pub trait Monitor: Drop {
    /// What contracts see of it: its form, the kinds that it wants, and what it keeps.
    ghost state: { Self → State };

    /// The kinds of events that it wants.
    fn wants(&self) -> Kind
        ensures { result ≡ (state self.now).wants };

    /// How many events of these kinds it saw. At `u64::MAX` the count stands.
    fn hits(&self) -> u64
        ensures { result ≡ (state self.now).hits };

    /// Sees an event.
    fn see(&mut self, event: &Event)
        ensures { Saw (state self.old) (event.now ∷ []) (state self.new) };

    /// Writes its text, of at most 160 bytes and without a line feed, and answers the text's length.
    fn line(&self, out: &mut [u8]) -> usize
        requires { length out.old ≡ 160 }
        ensures len { result ≡ length (says (state self.now)) }
        ensures short { result ≤ 160 }
        ensures text { take result out.new ≡ says (state self.now) };
}
