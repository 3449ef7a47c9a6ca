//! `ds1pack`: a payload's file to the file of the DS1 line that carries it.

ghost use Rattle.pdh_streams.specs.Codecs.{packing};
ghost use Rattle.pdh_streams.specs.Ds1.{ds1_codec};
ghost use Rattle.pdh_streams.specs.Steps.{IsWholePayload, CanStream, IsPackPort};

use crate::ds1::{Ds1, pack_says};
use crate::inputs::whole_payload;
use crate::streaming::{MOST_BITS, stream};
use pdh_answers::{File, Stop};
use pdh_blocks::ShelfPort;
use pdh_ds1::{Ds1Packer, Frame1};
use pdh_edge::Shelf;
use pdh_packed::Packed;
use pdh_runner::{Input, Nobody, Outcome, PortCommand, PortFiles, Worked};
use std::alloc::{AllocError, Global};

/// `ds1pack`: it reads the payload, writes the line of superframes of a form that carries it, and answers how many they are.
#[derive(Drop)]
pub struct PackDs1 {
    /// The form.
    pub form: Frame1,
}

impl PortCommand<Nobody> for PackDs1 {
    type Plan = Input;

    ghost operation = { λ c. packing (ds1_codec c.form) };

    ghost planned = { λ c payload state. IsWholePayload (ds1_codec c.form) payload state };

    ghost opened = { λ c payload port. CanStream payload.bits port };

    ghost gives = { λ c payload begun port. IsPackPort c.form payload begun port };

    fn prepare<S: Shelf>(&self, _alloc: Global, shelf: &mut S) -> Result<Input, Stop> {
        whole_payload(&Ds1 { form: self.form }, shelf)
    }

    fn files(&self, alloc: Global, payload: &Input) -> Result<PortFiles, AllocError> {
        PortFiles::line_to_line(alloc, *payload, File::Ds1Line)
    }

    fn work<S: Shelf>(
        &self,
        alloc: Global,
        payload: &Input,
        mut port: ShelfPort<S>,
        _nobody: &mut Nobody,
    ) -> Worked<S> {
        let Ok(mut packer) = Ds1Packer::open(alloc, self.form) else {
            return Worked {
                port,
                outcome: Outcome::Memory,
            };
        };
        let Ok(mut buffer) = Packed::open(alloc, MOST_BITS) else {
            return Worked {
                port,
                outcome: Outcome::Memory,
            };
        };
        let bits = payload.bits;
        match stream(&mut packer, bits, &mut buffer, &mut port) {
            Ok(()) => Worked {
                port,
                outcome: Outcome::Whole(Ok(pack_says(self.form, bits / 8))),
            },
            Err(_) => Worked {
                port,
                outcome: Outcome::Failed,
            },
        }
    }
}
