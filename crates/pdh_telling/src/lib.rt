//! What the events of a sent line tell of what its frames' service bits say: when an alarm begins, and where a far end
//! block error is. It has no code: the definitions stand in `specs/`, and the laws in `laws`.
//! It knows any shapes, and those of the standards by their names, but no machine and no chain by its name.
#![tactic(auto)]

pub mod laws;
