//! The lines that words name, each with what receives it.

ghost use Rattle.std.specs.Prelude.{◌≡◌, [], Bool, List, IfOk};
ghost use Rattle.pdh_line.specs.Paths.{top};
ghost use Rattle.pdh_chain.specs.Calls.{AreFew};
ghost use Rattle.pdh_chain.specs.Trees.{receiver_of};
ghost use Rattle.pdh_placed.specs.Lines.{line_meaning};
ghost use Rattle.pdh_recording.specs.Given.{bits_left};
ghost use Rattle.pdh_named_lines.specs.Levels.{plans_of as plans_by};
ghost use Rattle.pdh_named_lines.specs.Lines.{meaning_of, IsFollowedAs};

use crate::levels::{plan_of, top_of};
use pdh_candidates::Word;
use pdh_chain::{
    C13Receiver, ChainRx, E12Receiver, E13Receiver, E14Receiver, E23Receiver, E24Receiver,
    E34Receiver, M12Receiver, M13Receiver, M23Receiver, open_receiver,
};
use pdh_ds1::{EsfPlan, SfPlan};
use pdh_ds1_events::SuperframeLine;
use pdh_e1_events::E1Line;
use pdh_following::{FollowFault, Followed, LineWanted, Progress, follow};
use pdh_health::NodePlan;
use pdh_placed::{Demultiplexed, Recorded};
use pdh_readings::BitOrder;
use pdh_recording::Recording;
use std::alloc::{AllocError, Global};
use std::io::{Read, Write};

/// How a recording is followed, and what is wanted of it.
#[derive(Drop)]
pub struct Wanted<W: Write + Drop> {
    /// What its line is.
    pub word: Word,
    /// The order of its bits.
    pub order: BitOrder,
    /// The bit of the file that is its first one.
    pub from: u64,
    /// Where the rows of its events are written, if they are wanted.
    pub events: Option<W>,
}

// What is known of the nodes of a line before its first bit, in the order of paths.
fn plans_of<L: Recorded>(alloc: Global, word: Word, line: &L) -> Result<Vec<NodePlan>, AllocError>
    ensures { IfOk result (λ plans. (bits : List Bool) → L.stands line.now bits
        → plans.items ≡ plans_by word ((L.meaning line.now).counted bits)) }
{
    let mut counts = Vec::new(alloc);
    line.count_nodes(&mut counts)?;
    let mut plans = Vec::with_capacity(alloc, counts.len())?;
    for node in &counts {
        plans.push(plan_of(word, node.path))?;
    }
    Ok(plans)
}

// Reads a recording to its end as a line that has no bit yet.
fn follow_line<L: Recorded, R: Read + Drop, W: Write + Drop, P: Progress>(
    alloc: Global,
    line: L,
    wanted: Wanted<W>,
    recording: &mut Recording<R>,
    progress: &mut P,
) -> Result<Followed<W>, FollowFault>
    requires { L.stands line [] }
    ensures { IfOk result (λ followed. IsFollowedAs W.contents (L.meaning line) wanted.word wanted.from
        (bits_left R.remaining wanted.order recording.old) wanted.events followed) }
{
    let Wanted {
        word,
        order,
        from,
        events,
    } = wanted;
    let plans = plans_of(alloc, word, &line)?;
    let wanted = LineWanted {
        order,
        from,
        rate: top_of(word).rate,
        plans: &plans,
        events,
    };
    follow(alloc, line, wanted, recording, progress)
}

// The same of a chain of multiplexers.
fn follow_chain<C: ChainRx, R: Read + Drop, W: Write + Drop, P: Progress>(
    alloc: Global,
    wanted: Wanted<W>,
    recording: &mut Recording<R>,
    progress: &mut P,
) -> Result<Followed<W>, FollowFault>
    requires { AreFew C.shapes }
    ensures { IfOk result (λ followed. IsFollowedAs W.contents (line_meaning (receiver_of C.shapes top 0)) wanted.word wanted.from
        (bits_left R.remaining wanted.order recording.old) wanted.events followed) }
{
    let receiver = open_receiver::<C>(alloc)?;
    let line = Demultiplexed { receiver };
    follow_line(alloc, line, wanted, recording, progress)
}

/// Reads a recording to its end as the line that its word names. It fails where the recording can't be read, where a row can't be
/// written, or where memory is wanting.
pub fn follow_named<R: Read + Drop, W: Write + Drop, P: Progress>(
    alloc: Global,
    wanted: Wanted<W>,
    recording: &mut Recording<R>,
    progress: &mut P,
) -> Result<Followed<W>, FollowFault>
    ensures { IfOk result (λ followed. IsFollowedAs W.contents (meaning_of wanted.word) wanted.word wanted.from
        (bits_left R.remaining wanted.order recording.old) wanted.events followed) }
{
    match wanted.word {
        Word::E14 => follow_chain::<E14Receiver, R, W, P>(alloc, wanted, recording, progress),
        Word::E24 => follow_chain::<E24Receiver, R, W, P>(alloc, wanted, recording, progress),
        Word::E34 => follow_chain::<E34Receiver, R, W, P>(alloc, wanted, recording, progress),
        Word::E13 => follow_chain::<E13Receiver, R, W, P>(alloc, wanted, recording, progress),
        Word::E23 => follow_chain::<E23Receiver, R, W, P>(alloc, wanted, recording, progress),
        Word::C13 | Word::C13Top => {
            follow_chain::<C13Receiver, R, W, P>(alloc, wanted, recording, progress)
        }
        Word::M13 => follow_chain::<M13Receiver, R, W, P>(alloc, wanted, recording, progress),
        Word::M23 => follow_chain::<M23Receiver, R, W, P>(alloc, wanted, recording, progress),
        Word::E12 => follow_chain::<E12Receiver, R, W, P>(alloc, wanted, recording, progress),
        Word::M12 => follow_chain::<M12Receiver, R, W, P>(alloc, wanted, recording, progress),
        Word::E1 => follow_line(alloc, E1Line::open(alloc)?, wanted, recording, progress),
        Word::Ds1Esf => {
            let line = SuperframeLine::<EsfPlan>::open(alloc)?;
            follow_line(alloc, line, wanted, recording, progress)
        }
        Word::Ds1Sf => {
            let line = SuperframeLine::<SfPlan>::open(alloc)?;
            follow_line(alloc, line, wanted, recording, progress)
        }
    }
}
