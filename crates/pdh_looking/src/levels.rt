//! The levels of a chain or a stream, and what was found of each.

ghost use Rattle.std.specs.Prelude.{◌≡◌, IfOk};
ghost use Rattle.pdh_looking.specs.Words.{sizes_of};
ghost use Rattle.pdh_looking.specs.Levels.{named, all_stand};

use crate::Level;
use pdh_candidates::Word;
use pdh_standing::Tally;
use std::alloc::{AllocError, Global};

/// A level of a chain or a stream, and how many nodes it has.
#[derive(Clone, Copy, Debug, PartialEq, Eq)]
pub struct LevelSize {
    pub level: Level,
    pub nodes: u64,
}

/// What was found of a level. At `u64::MAX` a count stands.
#[derive(Clone, Copy, Debug, PartialEq, Eq)]
pub struct LevelFound {
    /// The level.
    pub level: Level,
    /// How many nodes it has.
    pub nodes: u64,
    /// How many of them stand.
    pub stand: u64,
    /// The frames of these that were judged.
    pub judged: u64,
    /// The right ones of them.
    pub right: u64,
}

// The levels of chains and streams.
const ONE_E4: LevelSize = LevelSize {
    level: Level::E4,
    nodes: 1,
};

const FOUR_E3: LevelSize = LevelSize {
    level: Level::E3,
    nodes: 4,
};

const SIXTEEN_E2: LevelSize = LevelSize {
    level: Level::E2,
    nodes: 16,
};

const ONE_E3: LevelSize = LevelSize {
    level: Level::E3,
    nodes: 1,
};

const FOUR_E2: LevelSize = LevelSize {
    level: Level::E2,
    nodes: 4,
};

const ONE_DS3: LevelSize = LevelSize {
    level: Level::Ds3,
    nodes: 1,
};

const SEVEN_DS2: LevelSize = LevelSize {
    level: Level::Ds2,
    nodes: 7,
};

const ONE_E2: LevelSize = LevelSize {
    level: Level::E2,
    nodes: 1,
};

const ONE_DS2: LevelSize = LevelSize {
    level: Level::Ds2,
    nodes: 1,
};

const ONE_E1: LevelSize = LevelSize {
    level: Level::E1,
    nodes: 1,
};

const ONE_DS1: LevelSize = LevelSize {
    level: Level::Ds1,
    nodes: 1,
};

/// The levels of a chain or a stream, from the top.
pub(crate) fn sizes(word: Word) -> &'static [LevelSize]
    ensures { result.now ≡ sizes_of word }
{
    match word {
        Word::E14 => &[ONE_E4, FOUR_E3, SIXTEEN_E2],
        Word::E24 => &[ONE_E4, FOUR_E3],
        Word::E34 => &[ONE_E4],
        Word::E13 => &[ONE_E3, FOUR_E2],
        Word::E23 => &[ONE_E3],
        Word::C13 => &[ONE_DS3, SEVEN_DS2],
        Word::M13 => &[ONE_DS3, SEVEN_DS2],
        Word::C13Top => &[ONE_DS3],
        Word::M23 => &[ONE_DS3],
        Word::E12 => &[ONE_E2],
        Word::M12 => &[ONE_DS2],
        Word::E1 => &[ONE_E1],
        Word::Ds1Esf => &[ONE_DS1],
        Word::Ds1Sf => &[ONE_DS1],
    }
}

/// What was found of these levels, by the nodes of each that stand, as far as there are tallies; or the refusal of memory.
pub(crate) fn name_levels(
    alloc: Global,
    sizes: &[LevelSize],
    tallies: &[Tally],
) -> Result<Vec<LevelFound>, AllocError>
    ensures { IfOk result (λ levels. levels.items ≡ named sizes.now tallies.now) }
{
    sizes
        .iter()
        .zip(tallies)
        .map(|(size, tally)| LevelFound {
            level: size.level,
            nodes: size.nodes,
            stand: tally.stand,
            judged: tally.judged,
            right: tally.right,
        })
        .collect(alloc)
}

/// Whether some node of each level stands.
pub(crate) fn each_stands(levels: &[LevelFound]) -> bool
    ensures { result ≡ all_stand levels.now }
{
    levels.iter().all(|level| level.stand > 0)
}
