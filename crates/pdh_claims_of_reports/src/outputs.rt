//! The outputs of a run.

ghost use Rattle.std.specs.Prelude.{◌≡◌, [], ◌∷◌, ◌++◌, length, codes, OnOk};
ghost use Rattle.pdh_outputs.specs.Outputs.{names_begun};

use pdh_outputs::{OutputFault, OutputFiles};
use pdh_report_words::Named;
use std::fs::Files;

/// The second output that is begun is listed behind the first.
pub fn output_not_listed<'a, R: Files>(
    outputs: &mut OutputFiles<'a>,
    rt: &R,
    one: &'a str,
    other: &'a str,
) -> Result<R::File, OutputFault<'a>>
    requires { outputs.old.begun.items ≡ [] }
    ensures { OnOk result (length (names_begun outputs.new.begun.items) ≡ 2) }
{
    outputs.begin(rt, Named::Json, one)?;
    outputs.begin(rt, Named::Picture, other)
}

/// An output is written beside its name.
pub fn written_under_its_own_name<'a, R: Files>(
    outputs: &mut OutputFiles<'a>,
    rt: &R,
    named: Named,
    name: &'a str,
) -> Result<R::File, OutputFault<'a>>
    requires { outputs.old.begun.items ≡ [] }
    ensures { OnOk result (names_begun outputs.new.begun.items ≡ (named, name.now, name.now ++ codes ".part") ∷ []) }
{
    outputs.begin(rt, named, name)
}
