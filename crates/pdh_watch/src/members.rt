//! Monitors as a watch: each sees every event.

ghost use Rattle.std.specs.Prelude.{◌≡◌, [], ◌∷◌, map};
ghost use Rattle.pdh_watch.specs.Monitors.{SawEach, SawAll};

use crate::{Event, Kind, Monitor, Watch};

// What is inside is the monitor.
impl Monitor for Box<dyn Monitor> {
    ghost state = { λ b. (Monitor-box b).state b.value };

    fn wants(&self) -> Kind {
        (**self).wants()
    }

    fn hits(&self) -> u64 {
        (**self).hits()
    }

    fn see(&mut self, event: &Event) {
        (**self).see(event);
    }

    fn line(&self, out: &mut [u8]) -> usize {
        (**self).line(out)
    }
}

/// Boxed monitors, each of which sees every event, and a count of the events.
pub type Boxes = Members<Box<dyn Monitor>>;

/// Monitors of one type, each of which sees every event, and a count of the events.
#[derive(Drop)]
pub struct Members<M: Monitor> {
    list: Vec<M>,
    count: u64,
}

// Shows an event to each monitor.
fn show_each<M: Monitor>(list: &mut Vec<M>, event: &Event)
    ensures { SawEach (map M.state list.old.items) (event.now ∷ []) (map M.state list.new.items) }
{
    for i in 0..list.len() {
        list[i].see(event);
    }
}

impl<M: Monitor> Members<M> {
    /// Over these monitors, with no event counted.
    pub fn new(list: Vec<M>) -> Members<M>
        ensures list { result.list ≡ list }
        ensures count { result.count ≡ 0 }
    {
        Members { list, count: 0 }
    }

    /// How many events it saw. At `u64::MAX` the count stands.
    pub fn count(&self) -> u64
        ensures { result ≡ self.now.count }
    {
        self.count
    }

    /// The monitors, in the same order.
    pub fn into_list(self) -> Vec<M>
        ensures { result ≡ self.list }
    {
        self.list
    }
}

impl<M: Monitor> Watch for Members<M> {
    ghost use Rattle.pdh_watch.specs.MonitorLaws.{all_none, all_joined};

    ghost saw = { λ a events b. SawAll (map M.state a.list.items) a.count events (map M.state b.list.items) b.count };

    ghost saw_nothing = { λ a. all_none _ _ };

    ghost saw_join = { λ a b c xs ys f g. all_joined _ _ _ _ _ _ xs ys f g };

    fn note(&mut self, event: &Event) {
        show_each(&mut self.list, event);
        self.count = self.count.saturating_add(1);
    }
}
