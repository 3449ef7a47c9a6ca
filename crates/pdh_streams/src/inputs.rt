//! The inputs of the commands of framed lines: each is found before its bytes are read.

ghost use Rattle.std.specs.Prelude.{◌≡◌, IfOk, IfErr};
ghost use Rattle.pdh_edge.specs.Files.{Looks};
ghost use Rattle.pdh_runner.specs.Refusing.{Refuses};
ghost use Rattle.pdh_runner.specs.Performing.{IsCounted};
ghost use Rattle.pdh_streams.specs.Codecs.{packing};
ghost use Rattle.pdh_streams.specs.Steps.{IsWholePayload, IsFramedLine, RefusesFramed};

use crate::codec::Codec;
use pdh_answers::{File, Stop};
use pdh_edge::Shelf;
use pdh_runner::Input;
use pdh_runner::files::size;
use pdh_shape::MOST_FRAMES;

/// All bits of the payload, if it fills whole multiframes or superframes, and no more frames than a line may have.
pub(crate) fn whole_payload<C: Codec, S: Shelf>(codec: &C, shelf: &mut S) -> Result<Input, Stop>
    ensures looks { Looks (S.state shelf.old) (S.state shelf.new) }
    ensures ok { IfOk result (λ payload. IsWholePayload (C.codec codec.now) payload (S.state shelf.new)) }
    ensures err { IfErr result (Refuses (packing (C.codec codec.now)) (S.state shelf.old) (S.state shelf.new)) }
    ensures counted { IsCounted (S.state shelf.old) (S.state shelf.new) result }
{
    let octets = size(shelf, File::Payload)?;
    let frames = codec.frames_filled(octets);
    if frames > MOST_FRAMES {
        return Err(Stop::ManyFrames(frames));
    }
    if codec.left_over(octets) != 0 {
        return Err(Stop::NotWhole(octets));
    }
    Ok(Input {
        file: File::Payload,
        bits: 8 * octets,
    })
}

/// All bits of the framed line, if it has no more frames than a line may have.
pub fn framed_line<C: Codec, S: Shelf>(codec: &C, shelf: &mut S) -> Result<Input, Stop>
    ensures looks { Looks (S.state shelf.old) (S.state shelf.new) }
    ensures ok { IfOk result (λ line. IsFramedLine (C.codec codec.now) line (S.state shelf.new)) }
    ensures err { IfErr result (RefusesFramed (C.codec codec.now) (S.state shelf.old) (S.state shelf.new)) }
    ensures counted { IsCounted (S.state shelf.old) (S.state shelf.new) result }
{
    let file = codec.file();
    let octets = size(shelf, file)?;
    let frames = codec.frames_framed(octets);
    if frames > MOST_FRAMES {
        return Err(Stop::ManyFrames(frames));
    }
    Ok(Input {
        file,
        bits: 8 * octets,
    })
}
