//! The program's own monitors: counts, first events, and open alarms.

ghost use Rattle.std.specs.Prelude.{◌≡◌, ◌+◌, ◌++◌, ◌≤◌, [], length, take, None};
ghost use Rattle.pdh_watch.specs.Monitors.{State, new_monitor, alarm_kinds, hits_with, alarms_with, place_text, first_text};
ghost use Rattle.pdh_watch.specs.Monitors.Form.{Counts, KeepsFirst, Latches};

use crate::names::append_names;
use crate::{Event, Kind, Monitor};
use bitflags::Flags;
use pdh_text::Text;

// A count of the events that are wanted, after an event.
fn counted(wants: Kind, hits: u64, event: &Event) -> u64
    ensures { result ≡ hits_with wants hits event.now }
{
    if wants.contains(event.kind) {
        hits.saturating_add(1)
    } else {
        hits
    }
}

// Copies a text to the front of some bytes, and answers its length.
fn copy_out(text: &Text, out: &mut [u8]) -> usize
    requires short { length text.now ≤ 160 }
    requires room { length out.old ≡ 160 }
    ensures len { result ≡ length text.now }
    ensures text { take result out.new ≡ text.now }
{
    let bytes = text.bytes();
    out[..bytes.len()].copy_from_slice(bytes);
    bytes.len()
}

/// Counts the events of some kinds.
#[derive(Drop)]
pub struct Counter {
    kind: Kind,
    hits: u64,
}

impl Counter {
    /// Counts the events of these kinds. It has seen none.
    pub fn new(kind: Kind) -> Counter
        ensures { ⟦<Counter as Monitor>⟧.state result ≡ new_monitor Counts kind }
    {
        Counter { kind, hits: 0 }
    }
}

impl Monitor for Counter {
    ghost state = { λ m. record { form = Counts; wants = m.kind; hits = m.hits; first = None; alarms = 0; own_text = [] } };

    fn wants(&self) -> Kind {
        self.kind
    }

    fn hits(&self) -> u64 {
        self.hits
    }

    fn see(&mut self, event: &Event) {
        self.hits = counted(self.kind, self.hits, event);
    }

    #[tactic(auto, using(pdh_text::proofs::Lengths::digits))]
    fn line(&self, out: &mut [u8]) -> usize {
        let mut text = Text::new();
        append_names(&mut text, self.kind);
        text.text(": ");
        text.number(self.hits);
        copy_out(&text, out)
    }
}

/// Keeps the first event of some kinds.
#[derive(Drop)]
pub struct First {
    kind: Kind,
    hits: u64,
    first: Option<Event>,
}

impl First {
    /// Keeps the first event of these kinds. It has seen none.
    pub fn new(kind: Kind) -> First
        ensures { ⟦<First as Monitor>⟧.state result ≡ new_monitor KeepsFirst kind }
    {
        First {
            kind,
            hits: 0,
            first: None,
        }
    }
}

// Appends the path and the bit of an event.
#[tactic(auto, using(pdh_text::proofs::Lengths::digits, pdh_text::proofs::Lengths::path_len))]
fn append_place(text: &mut Text, event: Event)
    requires { length text.old ≤ 93 }
    ensures bytes { text.new ≡ text.old ++ place_text event }
    ensures len { length text.new ≤ length text.old + 67 }
{
    text.path(&event.path);
    text.text(" bit ");
    text.number(event.bit);
}

// Appends the place of the first event, or that there was none.
fn append_first(text: &mut Text, first: &Option<Event>)
    requires { length text.old ≤ 93 }
    ensures bytes { text.new ≡ text.old ++ first_text first.now }
    ensures len { length text.new ≤ length text.old + 67 }
{
    match first {
        None => text.text("none"),
        Some(event) => append_place(text, *event),
    }
}

impl Monitor for First {
    ghost state = { λ m. record { form = KeepsFirst; wants = m.kind; hits = m.hits; first = m.first; alarms = 0; own_text = [] } };

    fn wants(&self) -> Kind {
        self.kind
    }

    fn hits(&self) -> u64 {
        self.hits
    }

    fn see(&mut self, event: &Event) {
        self.hits = counted(self.kind, self.hits, event);
        if self.first.is_none() && self.kind.contains(event.kind) {
            self.first = Some(*event);
        }
    }

    fn line(&self, out: &mut [u8]) -> usize {
        let mut text = Text::new();
        text.text("first ");
        append_names(&mut text, self.kind);
        text.text(": ");
        append_first(&mut text, &self.first);
        copy_out(&text, out)
    }
}

/// Counts the alarms that have begun and not ended.
#[derive(Drop)]
pub struct Latch {
    hits: u64,
    alarms: u64,
}

impl Latch {
    /// No alarm is open, and it has seen no event.
    pub fn new() -> Latch
        ensures { ⟦<Latch as Monitor>⟧.state result ≡ new_monitor Latches alarm_kinds }
    {
        Latch { hits: 0, alarms: 0 }
    }
}

// The kinds that a latch wants.
fn latched_kinds() -> Kind
    ensures { result ≡ alarm_kinds }
{
    Kind::ALARM_ON.union(Kind::ALARM_OFF)
}

// The alarms that are open after an event.
fn open_after(alarms: u64, event: &Event) -> u64
    ensures { result ≡ alarms_with alarms event.now }
{
    if event.kind == Kind::ALARM_ON {
        alarms.saturating_add(1)
    } else if event.kind == Kind::ALARM_OFF {
        alarms.saturating_sub(1)
    } else {
        alarms
    }
}

impl Monitor for Latch {
    ghost state = { λ m. record { form = Latches; wants = alarm_kinds; hits = m.hits; first = None; alarms = m.alarms; own_text = [] } };

    fn wants(&self) -> Kind {
        latched_kinds()
    }

    fn hits(&self) -> u64 {
        self.hits
    }

    fn see(&mut self, event: &Event) {
        self.hits = counted(latched_kinds(), self.hits, event);
        self.alarms = open_after(self.alarms, event);
    }

    #[tactic(auto, using(pdh_text::proofs::Lengths::digits))]
    fn line(&self, out: &mut [u8]) -> usize {
        let mut text = Text::new();
        text.text("alarms open: ");
        text.number(self.alarms);
        copy_out(&text, out)
    }
}
