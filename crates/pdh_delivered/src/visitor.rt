//! Visitors as a trait.

ghost use Rattle.std.specs.Prelude.{◌≡◌, length};
ghost use Rattle.pdh_delivered.specs.Deliveries.{Delivery};

use pdh_packed::Packed;
use pdh_shape::Shape;

/// Is shown the delivered frames of a line of a shape.
pub trait Visitor<S: Shape>: Drop {
    /// What it is when a frame was shown, by what it was.
    ghost shown: { Self → Delivery → Self };

    /// Is shown the next frame, and the one before it, which has no bit where the frame is the first of its alignment.
    fn visit(&mut self, before: &Packed, frame: &Packed)
        requires { length frame.now.bits ≡ S.LEN }
        ensures { self.new ≡ shown self.old (record { before = before.now.bits; frame = frame.now.bits }) };
}
