//! What callers may rely on of texts, events and who sees them, each by its public contract alone: a wrong body that its
//! contract would pass breaks the claim of that name here.
#![tactic(auto)]

mod events;
mod telling;
mod text;
mod watch;
