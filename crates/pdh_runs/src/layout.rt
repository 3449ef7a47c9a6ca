//! The layout of a frame: its tables of slots, made once and shared by sending and receiving.

ghost use Rattle.std.specs.Prelude.{◌≡◌, ◌<◌, ◌≤◌, ◌+◌, filter, IfSome};
ghost use Rattle.pdh_shape.specs.Frame.{slots as slots_of};
ghost use Rattle.pdh_shape.specs.Payload.{is_payload as is_payload_role, payload_before};
ghost use Rattle.pdh_runs.specs.Pieces.{turn, overhead_before, rows};
ghost use Rattle.pdh_runs.specs.Tables.{is_overhead, AreOverheadRoles, EndsStretch, IsTributary};
ghost use Rattle.pdh_runs.specs.WordTables.{AreWords};

use crate::tables::{Tributary, ends, overhead, overhead_roles, payload, roles, tributaries};
use crate::words::{WordAt, words};
use pdh_shape::{Role, Shape};
use std::alloc::{AllocError, Global};
use std::marker::{Model, PhantomData};

/// How a frame is put together from its tributaries and its overhead, and taken apart. Tributaries
/// and slots are counted from 0. Only `open` takes memory.
#[derive(Drop)]
pub struct Layout<S: Shape> {
    // how many payload slots stand before each slot, and before the frame's end
    payload: Vec<u16>,
    // the slots that are none
    overhead: Vec<u16>,
    // what these carry
    overhead_roles: Vec<Role>,
    // for each slot the end of the payload slots, or of the others, among which it stands
    ends: Vec<u16>,
    tributaries: Vec<Tributary>,
    // where the words of the payload stand, if each stands in at most two stretches of payload slots
    words: Option<Vec<WordAt>>,
    of: PhantomData<S>,
}

impl<S: Shape> Model for Layout<S> {
    ghost use Rattle.std.specs.Prelude.{IfSome};
    ghost use Rattle.pdh_runs.specs.Tables.{AreTables};
    ghost use Rattle.pdh_runs.specs.WordTables.{AreWords};

    ghost Value = { Unit {0} };

    ghost view = { λ l. tt };

    ghost invariant = { λ l. AreTables S.shape l.payload.items l.overhead.items l.overhead_roles.items l.ends.items l.tributaries.items × IfSome l.words (λ words. AreWords S.shape words.items) };
}

impl<S: Shape> Layout<S> {
    /// The layout of a shape's frame; or it finds no memory.
    pub fn open(alloc: Global) -> Result<Layout<S>, AllocError> {
        let roles = roles::<S>(alloc)?;
        let payload = payload::<S>(alloc, &roles)?;
        let ends = ends::<S>(alloc, &roles)?;
        Ok(Layout {
            overhead: overhead::<S>(alloc, &roles)?,
            overhead_roles: overhead_roles::<S>(alloc, &roles)?,
            tributaries: tributaries::<S>(alloc, &roles, &payload)?,
            words: words::<S>(alloc, &roles, &payload, &ends)?,
            payload,
            ends,
            of: PhantomData,
        })
    }

    /// The slots that carry no bit of a tributary, in order.
    pub fn overhead_slots(&self) -> &[u16]
        ensures { result.now ≡ filter (is_overhead S.shape) (slots_of S.shape) }
    {
        &self.overhead
    }

    /// What these slots carry, in order.
    pub fn overhead_roles(&self) -> &[Role]
        ensures { AreOverheadRoles S.shape result.now }
    {
        &self.overhead_roles
    }

    /// The slots of a tributary.
    pub(crate) fn tributary(&self, trib: u8) -> &Tributary
        requires { trib < S.TRIBS }
        ensures { IsTributary S.shape trib result.now }
    {
        &self.tributaries[trib as usize]
    }

    /// How many payload slots stand before a slot, or before the frame's end.
    pub(crate) fn payload_before(&self, slot: u32) -> usize
        requires { slot ≤ S.LEN }
        ensures { result ≡ payload_before S.shape slot }
    {
        usize::from(self.payload[slot as usize])
    }

    /// How many slots that carry no bit of a tributary stand before a slot, or before the frame's end.
    pub fn overhead_before(&self, slot: u32) -> usize
        requires { slot ≤ S.LEN }
        ensures { result ≡ overhead_before S.shape slot }
    {
        slot as usize - self.payload_before(slot)
    }

    /// The end of the payload slots, or of the others, among which a slot stands.
    pub(crate) fn end(&self, slot: u32) -> u32
        requires { slot < S.LEN }
        ensures { EndsStretch S.shape slot result }
    {
        u32::from(self.ends[slot as usize])
    }

    /// The turn in which a slot stands.
    pub(crate) fn turn(&self, slot: u32) -> usize
        requires some { 0 < S.TRIBS }
        requires inside { slot ≤ S.LEN }
        ensures { result ≡ turn S.shape slot }
    {
        self.payload_before(slot) / usize::from(S::TRIBS)
    }

    /// How many turns a piece of a frame touches.
    pub(crate) fn rows(&self, first: u32, len: usize) -> usize
        requires some { 0 < S.TRIBS }
        requires inside { first + len ≤ S.LEN }
        ensures { result ≡ rows S.shape first len }
    {
        let tribs = usize::from(S::TRIBS);
        let end = self.payload_before(first + len as u32);
        (end + tribs - 1) / tribs - self.turn(first)
    }

    /// Where the words of the payload stand, if each stands in at most two stretches of payload slots.
    pub(crate) fn words(&self) -> Option<&Vec<WordAt>>
        ensures { IfSome result (λ words. AreWords S.shape words.now.items) }
    {
        self.words.as_ref()
    }

    /// Whether a slot is a payload slot.
    pub(crate) fn is_payload(&self, slot: u32) -> bool
        requires { slot < S.LEN }
        ensures { result ≡ is_payload_role (S.shape.role slot) }
    {
        self.payload_before(slot) < self.payload_before(slot + 1)
    }
}
