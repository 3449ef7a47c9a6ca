//! Chains and framed streams.

ghost use Rattle.std.specs.Prelude.{◌≡◌};
ghost use Rattle.pdh_candidates.specs.Words.{words, name_of};

/// A chain or a framed stream.
#[derive(Clone, Copy, Debug, PartialEq, Eq)]
pub enum Word {
    /// 64 streams of 2048 kbit/s in 139264 kbit/s, by way of 34368 and 8448.
    E14,
    /// 16 streams of 8448 kbit/s in 139264 kbit/s, by way of 34368.
    E24,
    /// Four streams of 34368 kbit/s in 139264 kbit/s.
    E34,
    /// 16 streams of 2048 kbit/s in 34368 kbit/s, by way of 8448.
    E13,
    /// Four streams of 8448 kbit/s in 34368 kbit/s.
    E23,
    /// 28 DS1s in 44736 kbit/s with C-bit parity, by way of seven DS2s.
    C13,
    /// 28 DS1s in 44736 kbit/s, by way of seven DS2s.
    M13,
    /// 44736 kbit/s with C-bit parity, of whose DS2s none is found.
    C13Top,
    /// Seven DS2s in 44736 kbit/s.
    M23,
    /// Four streams of 2048 kbit/s in 8448 kbit/s.
    E12,
    /// Four DS1s in 6312 kbit/s.
    M12,
    /// 2048 kbit/s, framed with CRC-4 multiframes.
    E1,
    /// A DS1 in extended superframes.
    Ds1Esf,
    /// A DS1 in superframes of 12 frames.
    Ds1Sf,
}

/// All of them in the order in which they are tried: the deepest first.
pub fn all_words() -> [Word; 14]
    ensures { result ≡ words }
{
    [
        Word::E14,
        Word::E24,
        Word::E34,
        Word::E13,
        Word::E23,
        Word::C13,
        Word::M13,
        Word::C13Top,
        Word::M23,
        Word::E12,
        Word::M12,
        Word::E1,
        Word::Ds1Esf,
        Word::Ds1Sf,
    ]
}

impl Word {
    /// Its word on the command line and in texts.
    pub fn name(self) -> &'static str
        ensures { result.now ≡ name_of self }
    {
        match self {
            Word::E14 => "e14",
            Word::E24 => "e24",
            Word::E34 => "e34",
            Word::E13 => "e13",
            Word::E23 => "e23",
            Word::C13 => "c13",
            Word::M13 => "m13",
            Word::C13Top => "c13",
            Word::M23 => "m23",
            Word::E12 => "e12",
            Word::M12 => "m12",
            Word::E1 => "e1",
            Word::Ds1Esf => "ds1-esf",
            Word::Ds1Sf => "ds1-sf",
        }
    }
}
