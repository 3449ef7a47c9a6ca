//! The children's bits of a ready frame, or of a gap. Where the drain has room for them all, each child gets its own at once;
//! else they come in their order: each child gets at once those that bring no event, and the others by themselves.

ghost use Rattle.std.specs.Prelude.{◌≡◌, ◌<◌, ◌≤◌, ℕ, true, length, map, drop, None, IfSome, OnOk, OnErr};
ghost use Rattle.std.specs.List.{slice_index_or};
ghost use Rattle.pdh_edge.specs.Ports.{for_leaf};
ghost use Rattle.pdh_events.specs.laws.ActsLaws.{bits_to};
ghost use Rattle.pdh_rx.specs.Node.{AreReady, AllFit, Keeps, GivesPart, Acted, ActedWhole};
ghost use Rattle.pdh_rx.specs.Places.{loaded_bits, loaded_acts, loaded_most};
ghost use Rattle.pdh_rx.specs.Merging.{GoesOn, AllBegun};
ghost use Rattle.pdh_rx.specs.declared.merging.Due.{Due};

use crate::Rx;
use crate::children::Children;
use crate::strip::Strip;
use pdh_edge::{Drain, Failed};
use pdh_runs::Layout;
use pdh_shape::Shape;
use pdh_watch::Watch;
use std::alloc::{AllocError, Global};
use std::marker::Model;
use std::rc::Rc;

/// How far a tributary is in what is loaded.
#[derive(Clone, Copy)]
pub struct Due {
    /// The place of the next bit that it is to get, or the places' end.
    pub place: usize,
    /// How many bits it has got.
    pub given: usize,
}

/// What is given to the tributaries: a frame or a gap, taken apart, and how far each of them is in it.
#[derive(Drop)]
pub struct Split<S: Shape> {
    /// What is loaded.
    pub strip: Strip<S>,
    // how far each tributary is in it
    due: Vec<Due>,
}

impl<S: Shape> Model for Split<S> {
    ghost use Rattle.std.specs.Prelude.{◌≡◌, length};
    ghost use Rattle.pdh_rx.specs.Places.{Loaded};

    // what is loaded
    ghost Value = { Loaded };

    ghost view = { λ s. s.strip };

    ghost invariant = { λ s. length s.due.items ≡ S.TRIBS };
}

impl<S: Shape> Split<S> {
    /// Splits frames of this layout; or it finds no memory.
    pub fn open(alloc: Global, layout: Rc<Layout<S>>) -> Result<Split<S>, AllocError> {
        Ok(Split {
            strip: Strip::open(alloc, layout)?,
            due: vec![in alloc; Due { place: 0, given: 0 }; usize::from(S::TRIBS)]?,
        })
    }
}

// The tributary that gets the next bit, if one does before the places' end.
fn next_due<S: Shape>(due: &[Due], end: usize) -> Option<u8>
    requires { length due.now ≡ S.TRIBS }
    ensures known { IfSome result (λ trib. trib < S.TRIBS) }
    ensures before_end { IfSome result (λ trib. (d : Due) → (slice_index_or due.now trib d).place < end) }
    ensures first { IfSome result (λ trib. (d : Due) (j : ℕ) → j < length due.now → (slice_index_or due.now trib d).place ≤ (slice_index_or due.now j d).place) }
    ensures none { result ≡ None → (j : ℕ) (d : Due) → j < length due.now → end ≤ (slice_index_or due.now j d).place }
{
    let mut first = end;
    let mut next = None;
    for trib in 0..S::TRIBS {
        let place = due[trib as usize].place;
        if place < first {
            first = place;
            next = Some(trib);
        }
    }
    next
}

// Gives a child its bits of what is loaded from one on, none or more of those that bring no event, and notes how far it is then.
fn give_on<S: Shape, C: Rx, D: Drain>(
    children: &mut Children<S, C>,
    strip: &Strip<S>,
    due: &mut [Due],
    trib: u8,
    from: usize,
    drain: &mut D,
) -> Result<(), Failed>
    requires known { trib < S.TRIBS }
    requires room { length due.old ≡ S.TRIBS }
    requires read { strip.now.bits ≡ loaded_bits S.shape strip.now.gap strip.now.frame trib }
    requires begun { from ≤ length strip.now.bits }
    requires ready { AreReady C.stands C.meaning children.old (D.outputs drain.old) }
    ensures given { OnOk result (GoesOn C.stands (map C.meaning children.old) S.shape strip.now.gap strip.now.frame trib from
        due.old due.new children.old children.new (D.outputs drain.old) (D.outputs drain.new)) }
    ensures part { OnErr result (GivesPart C.stands (map C.meaning children.old) (for_leaf trib (drop from strip.now.bits))
        children.old (D.outputs drain.old) (D.outputs drain.new)) }
    ensures kept { Keeps C.meaning D.drain_faults D.drained children.old children.new drain.old drain.new result }
    ensures room { length due.new ≡ length due.old }
{
    let bits = strip.bits();
    // a place fits, since a length does
    let _fits = bits.len();
    let more = children.glide(trib, bits, from, drain)?;
    let given = from + more;
    due[trib as usize] = Due {
        place: strip.place(trib, given),
        given,
    };
    Ok(())
}

// Gives each child at once its first bits of what is loaded, none or more of those that bring no event.
fn give_ahead<S: Shape, C: Rx, D: Drain>(
    children: &mut Children<S, C>,
    strip: &mut Strip<S>,
    due: &mut [Due],
    drain: &mut D,
) -> Result<(), Failed>
    requires room { length due.old ≡ S.TRIBS }
    requires ready { AreReady C.stands C.meaning children.old (D.outputs drain.old) }
    ensures frame { strip.new.frame ≡ strip.old.frame }
    ensures gap { strip.new.gap ≡ strip.old.gap }
    ensures begun { OnOk result (AllBegun C.stands (map C.meaning children.old) S.shape strip.old.gap strip.old.frame due.new
        children.old children.new (D.outputs drain.old) (D.outputs drain.new)) }
    ensures part { OnErr result (GivesPart C.stands (map C.meaning children.old) (bits_to (loaded_acts S.shape strip.old.gap strip.old.frame))
        children.old (D.outputs drain.old) (D.outputs drain.new)) }
    ensures kept { Keeps C.meaning D.drain_faults D.drained children.old children.new drain.old drain.new result }
    ensures room { length due.new ≡ length due.old }
{
    for trib in 0..S::TRIBS {
        strip.read(trib);
        give_on::<S, C, D>(children, strip, due, trib, 0, drain)?;
    }
    Ok(())
}

// Gives the children their bits of what is loaded: each at once those that bring no event, and then the others in turn.
fn give_in_turn<S: Shape, C: Rx, D: Drain, W: Watch>(
    children: &mut Children<S, C>,
    strip: &mut Strip<S>,
    due: &mut [Due],
    drain: &mut D,
    watch: &mut W,
) -> Result<(), Failed>
    requires room { length due.old ≡ S.TRIBS }
    requires ready { AreReady C.stands C.meaning children.old (D.outputs drain.old) }
    ensures acted { Acted C.Rx D.Drain W.Watch (loaded_acts S.shape strip.old.gap strip.old.frame)
        children.old children.new drain.old drain.new watch.old watch.new result }
    ensures room { length due.new ≡ length due.old }
{
    give_ahead::<S, C, D>(children, strip, due, drain)?;
    let end = strip.places();
    for _step in 0..end {
        let Some(trib) = next_due::<S>(due, end) else {
            return Ok(());
        };
        strip.read(trib);
        let bits = strip.bits();
        // a place fits, since a length does
        let _fits = bits.len();
        let given = due[trib as usize].given;
        children.push(trib, bits.get(given), drain, watch)?;
        give_on::<S, C, D>(children, strip, due, trib, given + 1, drain)?;
    }
    Ok(())
}

// Gives the children their bits of what is loaded, for which there is room: one child after another, since no put fails
// and no event comes by which their order could be told.
pub(crate) fn give_in_room<S: Shape, C: Rx, D: Drain, W: Watch>(
    children: &mut Children<S, C>,
    strip: &mut Strip<S>,
    drain: &mut D,
)
    requires ready { AreReady C.stands C.meaning children.old (D.outputs drain.old) }
    requires fits { AllFit C.fits children.old (D.room drain.old) (loaded_most S.shape strip.old.gap) }
    ensures { (watch : W) → ActedWhole C.Rx D.Drain W.Watch (loaded_acts S.shape strip.old.gap strip.old.frame)
        children.old children.new drain.old drain.new watch watch }
{
    for trib in 0..S::TRIBS {
        strip.read(trib);
        children.take_in_room(trib, strip.bits(), drain);
    }
}

// Gives the children their bits of what is loaded: child by child where there is room for all of them, else in turn.
pub(crate) fn give_loaded<S: Shape, C: Rx, D: Drain, W: Watch>(
    children: &mut Children<S, C>,
    split: &mut Split<S>,
    room: bool,
    drain: &mut D,
    watch: &mut W,
) -> Result<(), Failed>
    requires ready { AreReady C.stands C.meaning children.old (D.outputs drain.old) }
    requires fits { room ≡ true → AllFit C.fits children.old (D.room drain.old) (loaded_most S.shape split.old.gap) }
    ensures { Acted C.Rx D.Drain W.Watch (loaded_acts S.shape split.old.gap split.old.frame)
        children.old children.new drain.old drain.new watch.old watch.new result }
{
    if room {
        give_in_room::<S, C, D, W>(children, &mut split.strip, drain);
        return Ok(());
    }
    give_in_turn::<S, C, D, W>(children, &mut split.strip, &mut split.due, drain, watch)
}
