//! What is judged of a line as the top of each chain or stream.

ghost use Rattle.std.specs.Prelude.{◌≡◌, IfOk};
ghost use Rattle.pdh_looking.specs.Judging.{judged_as, tops_in, at_top_of, are_alike_as};

use crate::top::Top;
use pdh_delivered::are_alike;
use pdh_ds::{Ds2, Ds3};
use pdh_ds1::{Ds1Esf, Ds1Sf};
use pdh_e1_judging::judge_e1;
use pdh_eframes::{E2, E3, E4};
use pdh_judging::{Judged, judge};
use pdh_packed::Packed;
use std::alloc::{AllocError, Global};

/// What is judged of a line by each frame at a top.
#[derive(Clone, Copy)]
pub struct Tops {
    e4: Judged,
    e3: Judged,
    ds3: Judged,
    e2: Judged,
    ds2: Judged,
    e1: Judged,
    esf: Judged,
    sf: Judged,
}

/// Judges a line by a frame at a top; or it finds no memory.
pub(crate) fn judge_as(alloc: Global, top: Top, line: &Packed) -> Result<Judged, AllocError>
    ensures { IfOk result (λ judged. judged ≡ judged_as top line.now.bits) }
{
    match top {
        Top::E4 => judge::<E4>(alloc, line),
        Top::E3 => judge::<E3>(alloc, line),
        Top::Ds3 => judge::<Ds3>(alloc, line),
        Top::E2 => judge::<E2>(alloc, line),
        Top::Ds2 => judge::<Ds2>(alloc, line),
        Top::E1 => judge_e1(alloc, line),
        Top::Ds1Esf => judge::<Ds1Esf>(alloc, line),
        Top::Ds1Sf => judge::<Ds1Sf>(alloc, line),
    }
}

impl Tops {
    /// Judges a line by each frame at a top; or it finds no memory.
    pub(crate) fn judge(alloc: Global, line: &Packed) -> Result<Tops, AllocError>
        ensures { IfOk result (λ judged. judged ≡ tops_in line.now.bits) }
    {
        Ok(Tops {
            e4: judge_as(alloc, Top::E4, line)?,
            e3: judge_as(alloc, Top::E3, line)?,
            ds3: judge_as(alloc, Top::Ds3, line)?,
            e2: judge_as(alloc, Top::E2, line)?,
            ds2: judge_as(alloc, Top::Ds2, line)?,
            e1: judge_as(alloc, Top::E1, line)?,
            esf: judge_as(alloc, Top::Ds1Esf, line)?,
            sf: judge_as(alloc, Top::Ds1Sf, line)?,
        })
    }

    /// What is judged by one of them.
    pub(crate) fn of(&self, top: Top) -> Judged
        ensures { result ≡ at_top_of self.now top }
    {
        match top {
            Top::E4 => self.e4,
            Top::E3 => self.e3,
            Top::Ds3 => self.ds3,
            Top::E2 => self.e2,
            Top::Ds2 => self.ds2,
            Top::E1 => self.e1,
            Top::Ds1Esf => self.esf,
            Top::Ds1Sf => self.sf,
        }
    }
}

/// Whether each delivered frame of a line is like the one before it in its alignment; or it finds no memory. Of multiframes of 2048
/// kbit/s this isn't told.
pub(crate) fn tops_are_alike(alloc: Global, top: Top, line: &Packed) -> Result<bool, AllocError>
    ensures { IfOk result (λ alike. alike ≡ are_alike_as top line.now.bits) }
{
    match top {
        Top::E4 => are_alike::<E4>(alloc, line),
        Top::E3 => are_alike::<E3>(alloc, line),
        Top::Ds3 => are_alike::<Ds3>(alloc, line),
        Top::E2 => are_alike::<E2>(alloc, line),
        Top::Ds2 => are_alike::<Ds2>(alloc, line),
        Top::E1 => Ok(false),
        Top::Ds1Esf => are_alike::<Ds1Esf>(alloc, line),
        Top::Ds1Sf => are_alike::<Ds1Sf>(alloc, line),
    }
}
