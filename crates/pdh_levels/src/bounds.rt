//! What is fixed of all levels, as far as the code asks for it: `specs/Levels.antt` has it all.

/// The most tributaries of a node, for which a row has room.
pub const MOST_TRIBUTARIES: usize = 7;
