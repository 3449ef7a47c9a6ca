//! The looking at a recording, before it is read.

ghost use Rattle.std.specs.Prelude.{◌≡◌, IfOk};
ghost use Rattle.pdh_reporting.specs.Choosing.{is_left, orders_left, IsBeside, IsGiven, IsChoice};

use crate::chosen::{Beside, Choice, Chosen};
use pdh_candidates::Word;
use pdh_looking::{Looked, look, top_stands};
use pdh_readings::{BitOrder, all_orders};
use pdh_recording::Part;
use pdh_report_words::Request;
use std::alloc::{AllocError, Global};

// Whether the words leave an order of bits: any, but where they tell that bits are inverted or begin at the least significant one.
fn leaves(request: &Request<'_>, order: BitOrder) -> bool
    ensures { result ≡ is_left request.now.lsb_first request.now.inverted order }
{
    (order.lsb_first || !request.lsb_first) && (order.inverted || !request.inverted)
}

// The orders of bits that the words leave.
fn orders_of(alloc: Global, request: &Request<'_>) -> Result<Vec<BitOrder>, AllocError>
    ensures { IfOk result (λ orders. orders.items ≡ orders_left request.now) }
{
    let all = all_orders();
    let mut orders = Vec::new(alloc);
    for order in &all {
        if leaves(request, *order) {
            orders.push(*order)?;
        }
    }
    Ok(orders)
}

// What a search finds in a part beside a chain that is given, where its top doesn't stand.
fn look_beside(
    alloc: Global,
    part: &Part<'_>,
    word: Word,
    order: BitOrder,
) -> Result<Beside, AllocError>
    ensures { IfOk result (λ beside. IsBeside part.now word order beside) }
{
    if top_stands(alloc, part.bytes, part.first, part.bits, word, order)? {
        return Ok(Beside::Unasked);
    }
    let orders = all_orders();
    match look(alloc, part.bytes, part.first, part.bits, orders.as_slice())? {
        Looked::Found(found) => Ok(Beside::Chain(found.candidate.word, found.candidate.order)),
        Looked::Nothing(_) => Ok(Beside::Nothing),
    }
}

// A recording is read as it was told.
fn choose_given(
    alloc: Global,
    request: &Request<'_>,
    word: Word,
    part: &Part<'_>,
) -> Result<Choice, AllocError>
    ensures { IfOk result (λ choice. IsGiven request.now part.now word choice) }
{
    let order = BitOrder {
        lsb_first: request.lsb_first,
        inverted: request.inverted,
    };
    let beside = look_beside(alloc, part, word, order)?;
    Ok(Choice::Read(Chosen {
        word,
        order,
        part_bits: part.bits,
        found: None,
        beside,
    }))
}

/// What a recording with this part is read as; or the refusal of memory.
pub(crate) fn choose(
    alloc: Global,
    request: &Request<'_>,
    part: &Part<'_>,
) -> Result<Choice, AllocError>
    ensures { IfOk result (λ choice. IsChoice request.now part.now choice) }
{
    if let Some(word) = request.chain {
        return choose_given(alloc, request, word, part);
    }
    if let Some(byte) = part.constant {
        return Ok(Choice::Constant(byte));
    }
    let orders = orders_of(alloc, request)?;
    match look(alloc, part.bytes, part.first, part.bits, &orders)? {
        Looked::Found(found) => Ok(Choice::Read(Chosen {
            word: found.candidate.word,
            order: found.candidate.order,
            part_bits: part.bits,
            found: Some(found),
            beside: Beside::Unasked,
        })),
        Looked::Nothing(nearest) => Ok(Choice::Nothing(part.bits, nearest)),
    }
}
