//! The file of a line as an input, where it isn't too long.

ghost use Rattle.std.specs.Prelude.{◌≡◌, IfOk, IfErr};
ghost use Rattle.pdh_edge.specs.Files.{Looks};
ghost use Rattle.pdh_runner.specs.Lines.{IsLine, IsLineCause};
ghost use Rattle.pdh_runner.specs.Performing.{IsCounted};

use crate::files::size;
use crate::port::Input;
use pdh_answers::{File, Stop};
use pdh_chain::{Chain, frame_bytes};
use pdh_edge::Shelf;
use pdh_shape::MOST_FRAMES;

/// All bits of the line of a file, if it has no more frames than a line may have.
pub fn line_of<S: Shelf>(chain: Chain, file: File, shelf: &mut S) -> Result<Input, Stop>
    ensures looks { Looks (S.state shelf.old) (S.state shelf.new) }
    ensures file { IfOk result (λ line. line.file ≡ file) }
    ensures ok { IfOk result (λ line. IsLine chain line (S.state shelf.new)) }
    ensures err { IfErr result (IsLineCause file chain (S.state shelf.old) (S.state shelf.new)) }
    ensures counted { IsCounted (S.state shelf.old) (S.state shelf.new) result }
{
    let bytes = size(shelf, file)?;
    let frames = bytes / u64::from(frame_bytes(chain));
    if frames > MOST_FRAMES {
        return Err(Stop::ManyFrames(frames));
    }
    Ok(Input {
        file,
        bits: 8 * bytes,
    })
}
