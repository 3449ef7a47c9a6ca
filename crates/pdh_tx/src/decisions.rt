//! What the slots of a sent frame carry by its decisions, for multiplexers with stores and without: which tributary's bit,
//! and which bit where it is no tributary's.

ghost use Rattle.std.specs.Prelude.{◌≡◌, ◌+◌, ◌<◌, ◌≤◌, List, [], ◌∷◌, ◌++◌, length, map, IfSome};
ghost use Rattle.pdh_runs.specs.Pieces.{overhead_before};
ghost use Rattle.pdh_tx.specs.declared.tributary.FrameShare.{FrameShare};
ghost use Rattle.pdh_tx.specs.Tributary.{share_in};
ghost use Rattle.pdh_tx.specs.Node.{carries_more, carried_by, overhead_bit};
ghost use Rattle.pdh_tx.specs.Passing.{HoldsOverhead};

use crate::Tx;
use crate::pieces::Piece;
use crate::tributary::Tributary;
use pdh_packed::{Packed, Word};
use pdh_runs::Layout;
use pdh_shape::{Role, Service, Shape};

/// The decisions of a frame: what it carries of each tributary.
pub trait Decisions {
    /// What it brings and carries of each.
    ghost shares: { Self → List FrameShare };

    /// Whether it carries an additional bit of a tributary, by its number from 0.
    fn more(&self, trib: u8) -> bool
        ensures { result ≡ carries_more (shares self.now) trib };
}

impl<C: Tx> Decisions for Vec<Tributary<C>> {
    ghost shares = { λ list. map share_in list.items };

    fn more(&self, trib: u8) -> bool {
        if usize::from(trib) < self.len() {
            return self[trib as usize].share.more;
        }
        false
    }
}

// Where nothing is justified, no frame carries an additional bit.
impl Decisions for () {
    ghost shares = { λ none. [] };

    fn more(&self, _trib: u8) -> bool {
        false
    }
}

/// The tributary whose bit a slot carries, if it carries one.
pub fn carried<S: Shape, D: Decisions>(slot: u32, decisions: &D) -> Option<u8>
    requires { slot < S.LEN }
    ensures carried { result ≡ carried_by (D.shares decisions.now) (S.shape.role slot) }
    ensures known { IfSome result (λ trib. trib < S.TRIBS) }
{
    match S::role(slot) {
        Role::Info(trib) => Some(trib),
        Role::Just(trib) => {
            if decisions.more(trib) {
                Some(trib)
            } else {
                None
            }
        }
        _ => None,
    }
}

/// The bit of a slot of this role that carries no tributary's, where the frame says `say` and `odd` is
/// whether the information and justifiable slots of the frame before hold an odd number of ones.
pub fn overhead_of<S: Shape, D: Decisions>(
    role: Role,
    say: &Service,
    odd: bool,
    decisions: &D,
) -> bool
    ensures { result ≡ overhead_bit S.shape say.now odd (D.shares decisions.now) role }
{
    match role {
        Role::Align(signal) => signal,
        Role::Service(number) => S::service(number, say, odd),
        Role::Control(trib, _) => !decisions.more(trib),
        _ => true,
    }
}

// Appends a bit to a word, which goes to a list first if it is full.
#[inline(always)]
fn push_over(bit: bool, word: &mut Word, into: &mut Packed)
    requires { length into.old.bits + length word.old < into.old.capacity }
    ensures bits { into.new.bits ++ word.new ≡ (into.old.bits ++ word.old) ++ bit ∷ [] }
    ensures capacity { into.new.capacity ≡ into.old.capacity }
{
    if word.len() == 64 {
        into.append(*word);
        *word = Word::empty();
    }
    word.push(bit);
}

/// Writes the bits of a piece's slots that are no payload slots, in order, in place of what `into` held.
pub fn write_overhead<S: Shape, D: Decisions>(
    layout: &Layout<S>,
    at: Piece,
    say: &Service,
    odd: bool,
    decisions: &D,
    into: &mut Packed,
)
    requires inside { at.slot + at.len ≤ S.LEN }
    requires room { S.LEN ≤ into.old.capacity }
    ensures bits { HoldsOverhead S.shape say.now odd (D.shares decisions.now) at.slot at.len into.new.bits }
    ensures count { overhead_before S.shape (at.slot + at.len)
        ≡ overhead_before S.shape at.slot + length into.new.bits }
    ensures capacity { into.new.capacity ≡ into.old.capacity }
{
    let from = layout.overhead_before(at.slot);
    let to = layout.overhead_before((at.slot as usize + at.len) as u32);
    let mut word = Word::empty();
    into.clear();
    for place in from..to {
        let role = layout.overhead_roles()[place];
        let bit = overhead_of::<S, D>(role, say, odd, decisions);
        push_over(bit, &mut word, into);
    }
    into.append(word);
}
