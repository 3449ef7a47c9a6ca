//! What callers may rely on of the storey Frames, each by its public contract alone: a wrong body that its contract
//! would pass breaks the claim that is named by that mistake.
#![tactic(auto)]

pub mod cbit;
pub mod ds;
pub mod e1;
pub mod eframes;
pub mod runs;
pub mod shape;
