//! How many leaves a chain has, in the type that numbers their files.

ghost use Rattle.std.specs.Prelude.{◌≡◌, ◌<◌, ◌≤◌};
ghost use Rattle.pdh_chain.specs.Chains.{leaves_of};

use pdh_chain::{Chain, leaves};

/// How many leaves a chain has, from 1 to 64: their files are numbered from 0 here, and from 1 in their names.
pub fn leaf_count(chain: Chain) -> u8
    ensures value { result ≡ leaves_of chain }
    ensures some { 0 < result }
    ensures few { result ≤ 64 }
{
    leaves(chain) as u8
}
