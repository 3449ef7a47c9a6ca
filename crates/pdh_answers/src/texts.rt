//! The line of a command of a chain that tells a number.

ghost use Rattle.std.specs.Prelude.{◌≡◌, ◌≤◌, ◌++◌, length, decimal, codes};
ghost use Rattle.pdh_chain.specs.Chains.{name_of as name_of_chain};

use pdh_chain::Chain;
use pdh_text::Text;

/// The line of a command, its chain, a part and a number, with its line feed. The command and the part have at most 100 bytes each.
#[tactic(auto, using(pdh_text::proofs::Lengths::digits))]
pub fn chain_counted(command: &str, chain: Chain, part: &str, n: u64) -> Text
    requires command { length command.now ≤ 100 }
    requires part { length part.now ≤ 100 }
    ensures { result ≡ command.now ++ name_of_chain chain ++ part.now ++ decimal n ++ codes "\n" }
{
    let mut text = Text::new();
    text.text(command);
    text.text(chain.name());
    text.text(part);
    text.number(n);
    text.text("\n");
    text
}
