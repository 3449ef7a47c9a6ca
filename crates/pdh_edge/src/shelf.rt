//! Files as a trait: what each call of a shelf answers, leaves and counts.

ghost use Rattle.std.specs.Prelude.{◌≡◌, length, IfOk, OnOk, OnErr, true};
ghost use Rattle.pdh_edge.specs.declared.shelf.Call.TheVariants.{Size};
ghost use Rattle.pdh_edge.specs.Files.{ShelfState, Looks, Touches, FailsToRead, FailsToReadRange, HasSize, HasRange, Starts, FailsToStart, Appends, FailsToAppend};

/// A kind of call of a shelf.
#[derive(Clone, Copy, Debug, PartialEq, Eq)]
pub enum Call {
    /// `size`.
    Size,
    /// `read_at`.
    Read,
    /// `start`.
    Start,
    /// `append`.
    Append,
}

/// The answer of a call of a device that failed. The device's count of faults has risen then.
#[derive(Clone, Copy, Debug, PartialEq, Eq)]
pub struct Failed;

/// Files by their names. Where an implementation knows what the files hold, it tells it, and the
/// clauses on contents hold there. A call that failed is counted once, a call that succeeded isn't;
/// counts stand at `u64::MAX` once there.
pub trait Shelf: Drop {
    /// What the shelf tells and counts.
    ghost state: { Self → ShelfState };

    /// How many calls failed to read.
    fn read_faults(&self) -> u64
        ensures { result ≡ (state self.now).counts.read_faults };

    /// How many calls failed to write.
    fn write_faults(&self) -> u64
        ensures { result ≡ (state self.now).counts.write_faults };

    /// How often `size` found no file.
    fn misses(&self) -> u64
        ensures { result ≡ (state self.now).counts.misses };

    /// The number of bytes of a file, or None where it isn't held.
    fn size(&mut self, name: &str) -> Result<Option<u64>, Failed>
        ensures kept { Looks (state self.old) (state self.new) }
        ensures ok { IfOk result (HasSize name.now (state self.old) (state self.new)) }
        ensures err { OnErr result (FailsToRead Size name.now (state self.old) (state self.new)) };

    /// Fills the buffer whole with a file's bytes from a place on. A range past the end, or of a
    /// file that isn't held, is a failure, which tells the range where it tells the name.
    fn read_at(&mut self, name: &str, at: u64, into: &mut [u8]) -> Result<(), Failed>
        requires { (state self.old).readable name.now at (length into.old) ≡ true }
        ensures kept { Looks (state self.old) (state self.new) }
        ensures ok { OnOk result (HasRange name.now at into.new (state self.old) (state self.new)) }
        ensures err { OnErr result (FailsToReadRange name.now (record { at = at; len = length into.old })
            (state self.old) (state self.new)) };

    /// Makes a file empty, new or not. After a failure it is as before or empty.
    fn start(&mut self, name: &str) -> Result<(), Failed>
        ensures kept { Touches name.now (state self.old) (state self.new) }
        ensures ok { OnOk result (Starts name.now (state self.old) (state self.new)) }
        ensures err { OnErr result (FailsToStart name.now (state self.old) (state self.new)) };

    /// Adds all the bytes at a file's end. After a failure a prefix of them was added. Of a file that
    /// isn't told once it is started nothing is told any more.
    fn append(&mut self, name: &str, bytes: &[u8]) -> Result<(), Failed>
        ensures kept { Touches name.now (state self.old) (state self.new) }
        ensures ok { OnOk result (Appends name.now bytes.now (state self.old) (state self.new)) }
        ensures err { OnErr result (FailsToAppend name.now bytes.now (state self.old) (state self.new)) };
}
