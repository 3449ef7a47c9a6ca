//! Passing bits of a port's list 0 on to its list 0, as they are or altered.

ghost use Rattle.std.specs.Prelude.{◌≡◌, ◌<◌, ◌≤◌, length, IsTrue};
ghost use Rattle.pdh_bits.specs.Bits.{bits_of};
ghost use Rattle.pdh_script.specs.Scripts.{altered, bits_changed, disturbed, FitIn};
ghost use Rattle.pdh_script.specs.Stored.{becomes, change_in, count_added, rows_in, steps_add};
ghost use Rattle.pdh_script.specs.Applying.{PassesBy};

use crate::step::{Edit, Effect, Step};
use crate::stop::ApplyStop;
use pdh_edge::Port;
use pdh_packed::Packed;

/// How many bits to take at once, where so many are left and there is room for so many.
fn part(left: u64, room: usize) -> usize
    requires left { 0 < left }
    requires room { 0 < room }
    ensures some { 0 < result }
    ensures left { result ≤ left }
    ensures room { result ≤ room }
{
    left.min(room as u64) as usize
}

/// Makes of bits what becomes of them.
fn alter(effect: Option<Effect>, bits: &mut Packed)
    ensures { bits.new ≡ record bits.old { bits = becomes effect bits.old.bits } }
{
    match effect {
        None => {}
        Some(Effect::Flip) => bits.invert(),
        Some(Effect::Ones) => bits.fill(true),
        Some(Effect::Zeros) => bits.fill(false),
        Some(Effect::Drop) => bits.clear(),
    }
}

/// Passes so many bits on, as they are or with this effect; `buffer` holds those that were taken.
fn pass<P: Port>(
    bits: u64,
    effect: Option<Effect>,
    buffer: &mut Packed,
    port: &mut P,
) -> Result<(), ApplyStop>
    requires room { 8 ≤ buffer.old.capacity }
    requires line { IsTrue ((P.inputs port.old).holds 0) }
    requires out { IsTrue ((P.outputs port.old).holds 0) }
    ensures capacity { buffer.new.capacity ≡ buffer.old.capacity }
    ensures passed { PassesBy P.Feed P.Drain P.kept (becomes effect) bits port.old port.new result }
{
    let mut passed = 0;
    while passed < bits {
        buffer.clear();
        let most = part(bits - passed, buffer.capacity());
        let count = port.bits(0, most, buffer)?;
        alter(effect, buffer);
        port.put_all(0, buffer)?;
        passed += count as u64;
    }
    Ok(())
}

/// Puts the bits of bytes; `buffer` holds them on their way.
fn put_bytes<P: Port>(bytes: &[u8], buffer: &mut Packed, port: &mut P) -> Result<(), ApplyStop>
    requires room { 8 ≤ buffer.old.capacity }
    requires out { IsTrue ((P.outputs port.old).holds 0) }
    ensures capacity { buffer.new.capacity ≡ buffer.old.capacity }
    ensures passed { PassesBy P.Feed P.Drain P.kept (λ line. bits_of bytes.now) 0 port.old port.new result }
{
    let most = buffer.capacity() / 8;
    let mut done = 0;
    while done < bytes.len() {
        let next = done + most.min(bytes.len() - done);
        buffer.clear();
        buffer.append_bytes(&bytes[done..next]);
        port.put_all(0, buffer)?;
        done = next;
    }
    Ok(())
}

/// Passes the bits that a change alters, or puts those that it adds; its bytes are the next of those that are added.
fn make_change<P: Port>(
    edit: Edit,
    added: &[u8],
    buffer: &mut Packed,
    port: &mut P,
) -> Result<(), ApplyStop>
    requires enough { count_added edit ≤ length added.now }
    requires room { 8 ≤ buffer.old.capacity }
    requires line { IsTrue ((P.inputs port.old).holds 0) }
    requires out { IsTrue ((P.outputs port.old).holds 0) }
    ensures capacity { buffer.new.capacity ≡ buffer.old.capacity }
    ensures passed { let change = change_in edit added.now in PassesBy P.Feed P.Drain P.kept
        (altered change) (bits_changed change) port.old port.new result }
{
    match edit {
        Edit::Alter { effect, bits } => pass(u64::from(bits), Some(effect), buffer, port),
        Edit::Add { bytes } => put_bytes(&added[..bytes as usize], buffer, port),
    }
}

/// Passes a line of so many bits on, disturbed by the rows of these steps and the bytes that they add.
pub fn disturb<P: Port>(
    steps: &[Step],
    bytes: &[u8],
    bits: u64,
    buffer: &mut Packed,
    port: &mut P,
) -> Result<(), ApplyStop>
    requires fit { FitIn bits (rows_in steps.now bytes.now) }
    requires enough { steps_add steps.now ≤ length bytes.now }
    requires room { 8 ≤ buffer.old.capacity }
    requires line { IsTrue ((P.inputs port.old).holds 0) }
    requires out { IsTrue ((P.outputs port.old).holds 0) }
    ensures { PassesBy P.Feed P.Drain P.kept (λ line. disturbed line (rows_in steps.now bytes.now)) bits
        port.old port.new result }
{
    let mut place = 0;
    let mut added = bytes;
    for step in steps {
        pass(u64::from(step.at) - place, None, buffer, port)?;
        make_change(step.edit, added, buffer, port)?;
        place = step.end();
        added = &added[step.edit.bytes()..];
    }
    pass(bits - place, None, buffer, port)
}
