//! Rows of a script, as they are stored.

ghost use Rattle.std.specs.Prelude.{◌≡◌, ℕ, List};
ghost use Rattle.pdh_script.specs.Scripts.{bits_changed, end_of};
ghost use Rattle.pdh_script.specs.Stored.{change_in, count_added, count_dropped, row_in};

/// What becomes of bits of the line.
#[derive(Clone, Copy)]
pub enum Effect {
    /// They are inverted.
    Flip,
    /// They are set to 1.
    Ones,
    /// They are set to 0.
    Zeros,
    /// They are left out.
    Drop,
}

/// The change that a row makes.
#[derive(Clone, Copy)]
pub enum Edit {
    /// So many bits of the line are altered.
    Alter { effect: Effect, bits: u32 },
    /// So many bytes, the next ones of those that the script adds, stand before the bit.
    Add { bytes: u32 },
}

/// A row: the place of its first bit, and its change.
#[derive(Clone, Copy)]
pub struct Step {
    pub at: u32,
    pub edit: Edit,
}

impl Edit {
    /// How many bytes it adds.
    pub fn bytes(&self) -> usize
        ensures { result ≡ count_added self.now }
    {
        match *self {
            Edit::Alter { .. } => 0,
            Edit::Add { bytes } => bytes as usize,
        }
    }

    /// How many bits of the line it leaves out.
    pub fn dropped(&self) -> u32
        ensures { result ≡ count_dropped self.now }
    {
        match *self {
            Edit::Alter {
                effect: Effect::Drop,
                bits,
            } => bits,
            _ => 0,
        }
    }

    /// How many bits of the line it alters.
    fn bits(&self) -> u32
        ensures { (bytes : List ℕ) → result ≡ bits_changed (change_in self.now bytes) }
    {
        match *self {
            Edit::Alter { bits, .. } => bits,
            Edit::Add { .. } => 0,
        }
    }
}

impl Step {
    /// The place behind the bits that it alters.
    pub fn end(&self) -> u64
        ensures { (bytes : List ℕ) → result ≡ end_of (row_in self.now bytes) }
    {
        u64::from(self.at) + u64::from(self.edit.bits())
    }
}
