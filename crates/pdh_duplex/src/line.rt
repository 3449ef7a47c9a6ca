//! A line from one end to the other, as a script disturbs it.

ghost use Rattle.std.specs.Prelude.{◌≡◌, ◌+◌, ◌<◌, ◌^◌, ℕ, ◌++◌, [], length, if◌then◌else◌, IfOk};
ghost use Rattle.pdh_script.specs.Scripts.{FitIn};
ghost use Rattle.pdh_script.specs.Bending.{added_at, all_brought};
ghost use Rattle.pdh_duplex.specs.Lines.{HasRoom};

use pdh_packed::Packed;
use pdh_script::{Bender, Script};
use std::alloc::{AllocError, Global};

/// A line as a script disturbs it, and room for what comes of a frame.
#[derive(Drop)]
pub struct Line<'a> {
    pub bender: Bender<'a>,
    pub came: Packed,
}

impl<'a> Line<'a> {
    /// A line of frames of so many bits, of which none was sent; or there is no memory.
    pub fn open(alloc: Global, script: &'a Script, len: u32) -> Result<Line<'a>, AllocError>
        requires { (bits : ℕ) × FitIn bits script.now }
        ensures bender { IfOk result (λ line. line.bender ≡ record { rows = script.now; place = 0 }) }
        ensures room { IfOk result (λ line. HasRoom len script.now line.came) }
    {
        let bits = u64::from(len) + 8 * script.added_bytes();
        Ok(Line {
            bender: Bender::new(script),
            came: Packed::open(alloc, bits as usize)?,
        })
    }

    /// Carries a frame: `came` has what its bits bring and, where it is the last, what is added behind it.
    pub fn carry(&mut self, frame: &Packed, last: bool)
        requires few { self.old.bender.place + length frame.now.bits < 2 ^ 63 }
        requires room { HasRoom (length frame.now.bits) self.old.bender.rows self.old.came }
        ensures came { self.new.came.bits ≡ all_brought self.old.bender.place self.old.bender.rows frame.now.bits
            ++ (if last then added_at (self.old.bender.place + length frame.now.bits) self.old.bender.rows else []) }
        ensures bender { self.new.bender ≡ record self.old.bender { place = self.old.bender.place + length frame.now.bits } }
        ensures room { self.new.came.capacity ≡ self.old.came.capacity }
    {
        self.came.clear();
        self.bender.bend_all(frame, &mut self.came);
        if last {
            self.bender.append_last(&mut self.came);
        }
    }
}
