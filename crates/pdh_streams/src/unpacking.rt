//! `ds1unpack`: the file of a DS1 line to its payload's file.

ghost use Rattle.std.specs.Prelude.{◌≡◌, Bool, List};
ghost use Rattle.pdh_ds1.specs.View.{form_of, StandsFor};
ghost use Rattle.pdh_streams.specs.Codecs.{unpacking, answer_of};
ghost use Rattle.pdh_streams.specs.Ds1.{ds1_codec, counts_in};
ghost use Rattle.pdh_streams.specs.Steps.{IsFramedLine, CanStream, IsUnpackPort};

use crate::codec::Found;
use crate::ds1::{Ds1, unpack_says};
use crate::inputs::framed_line;
use crate::streaming::{MOST_BITS, stream};
use pdh_answers::{Done, File, Stop};
use pdh_blocks::ShelfPort;
use pdh_ds1::{Ds1Align, Frame1};
use pdh_edge::Shelf;
use pdh_packed::Packed;
use pdh_runner::{Input, Nobody, Outcome, PortCommand, PortFiles, Worked};
use std::alloc::{AllocError, Global};

/// `ds1unpack`: it reads the line, writes the payload of the superframes of a form that are delivered of it, and answers how many
/// they are, and of extended ones what their blocks are judged, or that none was delivered.
#[derive(Drop)]
pub struct UnpackDs1 {
    /// The form.
    pub form: Frame1,
}

// What was found in a line so far.
fn found_by(align: &Ds1Align) -> Found
    ensures { (line : List Bool) → StandsFor align.now line → result ≡ counts_in (form_of align.now) line }
{
    Found {
        delivered: align.superframes(),
        blocks: align.blocks(),
        errored: align.errored(),
    }
}

// What is answered where this was found in a line of so many bits.
fn answer(form: Frame1, bits: u64, found: Found) -> Result<Done, Stop>
    ensures { result ≡ answer_of (ds1_codec form) bits found }
{
    if found.delivered == 0 {
        return Err(Stop::NoAlignment(bits));
    }
    Ok(unpack_says(form, found))
}

impl PortCommand<Nobody> for UnpackDs1 {
    type Plan = Input;

    ghost operation = { λ c. unpacking (ds1_codec c.form) };

    ghost planned = { λ c line state. IsFramedLine (ds1_codec c.form) line state };

    ghost opened = { λ c line port. CanStream line.bits port };

    ghost gives = { λ c line begun port. IsUnpackPort c.form line begun port };

    fn prepare<S: Shelf>(&self, _alloc: Global, shelf: &mut S) -> Result<Input, Stop> {
        framed_line(&Ds1 { form: self.form }, shelf)
    }

    fn files(&self, alloc: Global, line: &Input) -> Result<PortFiles, AllocError> {
        PortFiles::line_to_line(alloc, *line, File::PayloadOut)
    }

    fn work<S: Shelf>(
        &self,
        alloc: Global,
        line: &Input,
        mut port: ShelfPort<S>,
        _nobody: &mut Nobody,
    ) -> Worked<S> {
        let Ok(mut align) = Ds1Align::open(alloc, self.form) else {
            return Worked {
                port,
                outcome: Outcome::Memory,
            };
        };
        let Ok(mut buffer) = Packed::open(alloc, MOST_BITS) else {
            return Worked {
                port,
                outcome: Outcome::Memory,
            };
        };
        match stream(&mut align, line.bits, &mut buffer, &mut port) {
            Ok(()) => Worked {
                port,
                outcome: Outcome::Whole(answer(self.form, line.bits, found_by(&align))),
            },
            Err(_) => Worked {
                port,
                outcome: Outcome::Failed,
            },
        }
    }
}
