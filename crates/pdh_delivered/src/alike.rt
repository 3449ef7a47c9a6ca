//! Lines whose frames are alike.

ghost use Rattle.std.specs.Prelude.{◌≡◌, ◌<◌, ◌≤◌, ◌+◌, ◌*◌, length, IfOk};
ghost use Rattle.pdh_delivered.specs.Alike.{same_bits, are_alike as are_alike_in};

use crate::{Visitor, each_frame};
use pdh_packed::Packed;
use pdh_shape::Shape;
use std::alloc::{AllocError, Global};

// Whether two lists have the same bits.
fn are_same(one: &Packed, other: &Packed) -> bool
    ensures { result ≡ same_bits one.now.bits other.now.bits }
{
    let len = one.len();
    if len != other.len() {
        return false;
    }
    for place in 0..len {
        if one.get(place) != other.get(place) {
            return false;
        }
    }
    true
}

// Whether each frame that was shown was like the one before it in its alignment.
#[derive(Clone, Copy, Drop)]
struct Alike {
    alike: bool,
}

impl<S: Shape> Visitor<S> for Alike {
    ghost use Rattle.pdh_delivered.specs.Alike.{with_frame};

    ghost shown = { with_frame };

    fn visit(&mut self, before: &Packed, frame: &Packed) {
        self.alike = self.alike && (before.len() == 0 || are_same(before, frame));
    }
}

/// Whether each delivered frame of a line is like the one before it in its alignment; or it finds no memory.
pub fn are_alike<S: Shape>(alloc: Global, line: &Packed) -> Result<bool, AllocError>
    ensures { IfOk result (λ alike. alike ≡ are_alike_in S.shape line.now.bits) }
{
    let mut alike = Alike { alike: true };
    each_frame::<S, Alike>(alloc, line, &mut alike)?;
    Ok(alike.alike)
}
