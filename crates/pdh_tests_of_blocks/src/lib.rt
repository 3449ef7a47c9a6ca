//! Tests of the port over a shelf, by what its crate makes public.
//! It knows no frame and no command, and no crate stands on it.
#![tactic(auto)]

#[cfg(test)]
mod folder_port;
