//! Claims on `pdh_folder`.

ghost use Rattle.std.specs.Prelude.{◌≡◌, None, IfOk, OnErr};
ghost use Rattle.pdh_folder.specs.Untold.{folder_state, out_state};

use pdh_edge::{Failed, Shelf, Sink};
use pdh_folder::{Folder, Out};
use std::rt::Files;

/// A start that fails is counted.
pub fn fault_of_a_start_not_counted<R: Files + Drop>(
    folder: &mut Folder<R>,
    name: &str,
) -> Result<(), Failed>
    requires { (folder_state folder.old).counts.write_faults ≡ 0 }
    ensures { OnErr result ((folder_state folder.new).counts.write_faults ≡ 1) }
{
    folder.start(name)
}

/// A file that isn't there is counted.
pub fn miss_not_counted<R: Files + Drop>(
    folder: &mut Folder<R>,
    name: &str,
) -> Result<Option<u64>, Failed>
    requires { (folder_state folder.old).counts.misses ≡ 0 }
    ensures { IfOk result (λ size. size ≡ None → (folder_state folder.new).counts.misses ≡ 1) }
{
    folder.size(name)
}

/// A write that fails is counted.
pub fn output_fault_not_counted<R: Print + Drop>(
    out: &mut Out<R>,
    bytes: &[u8],
) -> Result<(), Failed>
    requires { (out_state out.old).faults ≡ 0 }
    ensures { OnErr result ((out_state out.new).faults ≡ 1) }
{
    out.write(bytes)
}
