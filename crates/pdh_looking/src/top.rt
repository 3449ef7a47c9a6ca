//! The frames at the tops of chains and streams.

ghost use Rattle.std.specs.Prelude.{◌≡◌};
ghost use Rattle.pdh_looking.specs.Words.{tops, top_of, len_of, level_of};

use crate::Level;
use pdh_candidates::Word;

/// The frame at the top of a chain, or of a stream.
#[derive(Clone, Copy, Debug, PartialEq, Eq)]
pub enum Top {
    /// The frame of 139264 kbit/s.
    E4,
    /// The frame of 34368 kbit/s.
    E3,
    /// The frame of 44736 kbit/s, whose alignment is the same with C-bit parity.
    Ds3,
    /// The frame of 8448 kbit/s.
    E2,
    /// The frame of 6312 kbit/s.
    Ds2,
    /// The multiframe of 2048 kbit/s.
    E1,
    /// The extended superframe of 1544 kbit/s.
    Ds1Esf,
    /// The superframe of 1544 kbit/s.
    Ds1Sf,
}

/// All of them in the order in which words with them are tried.
pub(crate) fn all_tops() -> [Top; 8]
    ensures { result ≡ tops }
{
    [
        Top::E4,
        Top::E3,
        Top::Ds3,
        Top::E2,
        Top::Ds2,
        Top::E1,
        Top::Ds1Esf,
        Top::Ds1Sf,
    ]
}

impl Top {
    /// That of a chain or a stream.
    pub(crate) fn of(word: Word) -> Top
        ensures { result ≡ top_of word }
    {
        match word {
            Word::E14 => Top::E4,
            Word::E24 => Top::E4,
            Word::E34 => Top::E4,
            Word::E13 => Top::E3,
            Word::E23 => Top::E3,
            Word::C13 => Top::Ds3,
            Word::M13 => Top::Ds3,
            Word::C13Top => Top::Ds3,
            Word::M23 => Top::Ds3,
            Word::E12 => Top::E2,
            Word::M12 => Top::Ds2,
            Word::E1 => Top::E1,
            Word::Ds1Esf => Top::Ds1Esf,
            Word::Ds1Sf => Top::Ds1Sf,
        }
    }

    /// Its bits.
    pub(crate) fn len(self) -> u32
        ensures { result ≡ len_of self }
    {
        match self {
            Top::E4 => 2928,
            Top::E3 => 1536,
            Top::Ds3 => 4760,
            Top::E2 => 848,
            Top::Ds2 => 1176,
            Top::E1 => 4096,
            Top::Ds1Esf => 4632,
            Top::Ds1Sf => 2316,
        }
    }

    /// Its level.
    pub(crate) fn level(self) -> Level
        ensures { result ≡ level_of self }
    {
        match self {
            Top::E4 => Level::E4,
            Top::E3 => Level::E3,
            Top::Ds3 => Level::Ds3,
            Top::E2 => Level::E2,
            Top::Ds2 => Level::Ds2,
            Top::E1 => Level::E1,
            Top::Ds1Esf => Level::Ds1,
            Top::Ds1Sf => Level::Ds1,
        }
    }
}
