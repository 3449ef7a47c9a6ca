//! The levels of chains and framed streams, from the top.

ghost use Rattle.std.specs.Prelude.{◌≡◌, ◌<◌, ◌^◌};
ghost use Rattle.pdh_named_lines.specs.Levels.{top_level, below_rate, level_at, plan_at, AreFactsOf};

use pdh_candidates::Word;
use pdh_health::{Framing, NodePlan};
use pdh_shape::Path;

/// What is known of the nodes of a level.
#[derive(Clone, Copy, Debug, PartialEq, Eq)]
pub struct LevelFacts {
    /// Its name in texts.
    pub name: &'static str,
    /// The nominal rate of its line in bits a second.
    pub rate: u64,
    /// How its nodes are aligned.
    pub framing: Framing,
    /// The bits of a block whose errors are told; 0 where none are.
    pub block: u32,
}

const E1: LevelFacts = LevelFacts {
    name: "E1",
    rate: 2_048_000,
    framing: Framing::Multiframes,
    block: 2048,
};

const E2: LevelFacts = LevelFacts {
    name: "E2",
    rate: 8_448_000,
    framing: Framing::Frames(848),
    block: 0,
};

const E3: LevelFacts = LevelFacts {
    name: "E3",
    rate: 34_368_000,
    framing: Framing::Frames(1536),
    block: 0,
};

const E4: LevelFacts = LevelFacts {
    name: "E4",
    rate: 139_264_000,
    framing: Framing::Frames(2928),
    block: 0,
};

const DS1_SF: LevelFacts = LevelFacts {
    name: "DS1",
    rate: 1_544_000,
    framing: Framing::Frames(2316),
    block: 0,
};

const DS1_ESF: LevelFacts = LevelFacts {
    name: "DS1",
    rate: 1_544_000,
    framing: Framing::Frames(4632),
    block: 4632,
};

const DS2: LevelFacts = LevelFacts {
    name: "DS2",
    rate: 6_312_000,
    framing: Framing::Frames(1176),
    block: 0,
};

const DS3: LevelFacts = LevelFacts {
    name: "DS3",
    rate: 44_736_000,
    framing: Framing::Frames(4760),
    block: 4760,
};

/// The top of a chain, or a framed stream.
pub fn top_of(word: Word) -> LevelFacts
    ensures facts { AreFactsOf (top_level word) result }
    ensures some { 0 < result.rate }
    ensures few { result.rate < 2 ^ 30 }
{
    match word {
        Word::E14 | Word::E24 | Word::E34 => E4,
        Word::E13 | Word::E23 => E3,
        Word::C13 | Word::M13 | Word::C13Top | Word::M23 => DS3,
        Word::E12 => E2,
        Word::M12 => DS2,
        Word::E1 => E1,
        Word::Ds1Esf => DS1_ESF,
        Word::Ds1Sf => DS1_SF,
    }
}

// The multiplexers below the top, if it has any.
fn below_top(word: Word) -> LevelFacts
    ensures { AreFactsOf (below_rate (top_level word).rate) result }
{
    match word {
        Word::E14 | Word::E24 | Word::E34 => E3,
        Word::C13 | Word::M13 | Word::C13Top | Word::M23 => DS2,
        Word::E13 | Word::E23 | Word::E12 | Word::M12 | Word::E1 | Word::Ds1Esf | Word::Ds1Sf => E2,
    }
}

/// The level of the node at a path.
pub fn level_of(word: Word, path: Path) -> LevelFacts
    ensures { AreFactsOf (level_at word path.depth) result }
{
    match path.depth {
        0 => top_of(word),
        1 => below_top(word),
        _ => E2,
    }
}

/// What is known of the node at a path before its first bit.
pub(crate) fn plan_of(word: Word, path: Path) -> NodePlan
    ensures { result ≡ plan_at word path }
{
    let level = level_of(word, path);
    NodePlan {
        path,
        framing: level.framing,
        block: level.block,
    }
}
