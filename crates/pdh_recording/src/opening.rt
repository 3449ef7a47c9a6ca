//! The opening of a recording.

ghost use Rattle.std.specs.Prelude.{◌≡◌, ◌/◌, ◌%◌, ◌≤◌, true, IfOk, IfSome, OnOk};
ghost use Rattle.pdh_readings.specs.declared.bit_order.BitOrder.{BitOrder as Order};
ghost use Rattle.pdh_recording.specs.Given.{bits_left};
ghost use Rattle.pdh_recording.specs.Opening.{room, of_size, Passes, BeginsAt, StandsAt, StandsInFile};

use crate::fault::Fault;
use crate::filling::{End, fill};
use crate::recording::Recording;
use crate::source::Source;
use std::alloc::Global;
use std::fs::{File, Files, Metadata, OpenFile as _};
use std::io::{ErrorKind, Read, Seek, SeekFrom};

// How many bytes are passed over at once.
const BLOCK_BYTES: usize = 4096;

/// A recording that was opened.
#[derive(Drop)]
pub struct Opened<R: Read + Drop> {
    /// The recording.
    pub recording: Recording<R>,
    /// What the system tells of its file, if it is one.
    pub data: Option<Metadata>,
    /// How many bits are read, where that is known.
    pub bits: Option<u64>,
}

// How many bits there may be from a bit on.
fn room(from: u64, bits: Option<u64>) -> u64
    ensures { result ≡ room from bits }
{
    bits.unwrap_or(u64::MAX).min(u64::MAX - from)
}

// Passes over the bytes of a reader before a bit.
fn pass_over<R: Read>(reader: &mut R, from: u64) -> Result<(), Fault>
    ensures { OnOk result (Passes (R.remaining reader.old) (R.remaining reader.new) (from / 8)) }
{
    let bytes = from / 8;
    let mut block = [0u8; BLOCK_BYTES];
    let mut passed = 0u64;
    while passed < bytes {
        let wanted = (bytes - passed).min(BLOCK_BYTES as u64) as usize;
        let filled = fill(reader, &mut block[..wanted]);
        passed += filled.count as u64;
        match filled.end {
            End::Full => {}
            End::Ended => return Err(Fault::NoBits { bit: from }),
            End::Failed => return Err(Fault::Unreadable { byte: passed }),
        }
    }
    Ok(())
}

// Opens what has no size: its bytes before the bit are read and passed over.
fn open_stream<R: Read + Drop>(
    alloc: Global,
    reader: R,
    from: u64,
    bits: Option<u64>,
) -> Result<Recording<R>, Fault>
    ensures begins { IfOk result (λ recording. (order : Order) → BeginsAt order from (room from bits) (R.remaining reader) (bits_left R.remaining order recording)) }
    ensures left { IfOk result (λ recording. recording.left ≡ room from bits) }
    ensures skip { IfOk result (λ recording. recording.skip ≡ from % 8) }
{
    let mut reader = reader;
    pass_over(&mut reader, from)?;
    Ok(Recording::new(alloc, reader, from, room(from, bits), false))
}

// How many bits are read of a file of so many bytes.
fn bits_of_file(size: u64, from: u64, bits: Option<u64>) -> Result<u64, Fault>
    ensures { IfOk result (λ count. count ≡ of_size size from bits) }
{
    let all = size.saturating_mul(8);
    if from >= all {
        return Err(Fault::NoBits { bit: from });
    }
    Ok(room(from, bits).min(all - from))
}

// Opens a file to be read.
fn open_file<R: Files>(rt: &R, name: &str) -> Result<(R::File, Metadata), Fault> {
    let file = match File::open(rt, name) {
        Ok(file) => file,
        Err(e) if e.kind() == ErrorKind::NotFound => return Err(Fault::NotThere),
        Err(_) => return Err(Fault::Unreadable { byte: 0 }),
    };
    match file.metadata() {
        Ok(data) => Ok((file, data)),
        Err(_) => Err(Fault::Unreadable { byte: 0 }),
    }
}

// Goes to a byte of a file.
fn seek_to<F: Seek>(file: &mut F, byte: u64) -> Result<(), Fault>
    ensures { OnOk result (StandsAt (F.stream_position file.old) (F.stream_position file.new) byte) }
{
    match file.seek(SeekFrom::Start(byte)) {
        Ok(_) => Ok(()),
        Err(_) => Err(Fault::Unreadable { byte }),
    }
}

// Opens a regular file, of which the system tells this: from the byte in which the bit lies, up to its size.
fn open_sized<F: Read + Seek + Drop, I: Read + Drop>(
    alloc: Global,
    file: F,
    data: Metadata,
    from: u64,
    bits: Option<u64>,
) -> Result<Opened<Source<F, I>>, Fault>
    ensures place { IfOk result (λ opened. StandsInFile F.stream_position (F.stream_position file) opened.recording.replay.reader (from / 8)) }
    ensures skip { IfOk result (λ opened. opened.recording.skip ≡ from % 8) }
    ensures left { IfOk result (λ opened. opened.recording.left ≤ room from bits) }
    ensures known { IfOk result (λ opened. IfSome opened.bits (λ count. (opened.recording.left ≡ count) × (opened.recording.sized ≡ true))) }
{
    let mut file = file;
    let left = bits_of_file(data.len(), from, bits)?;
    seek_to(&mut file, from / 8)?;
    Ok(Opened {
        recording: Recording::new(alloc, Source::File(file), from, left, true),
        data: Some(data),
        bits: Some(left),
    })
}

/// Opens a recording by its name, `-` for the standard input: its bits from a bit on, no more than so many. A regular file is read
/// up to the size that it has now, and anything else to its end.
pub fn open<R: Files + Input>(
    rt: &R,
    alloc: Global,
    name: &str,
    from: u64,
    bits: Option<u64>,
) -> Result<Opened<Source<R::File, R::Reader>>, Fault>
    ensures skip { IfOk result (λ opened. opened.recording.skip ≡ from % 8) }
    ensures left { IfOk result (λ opened. opened.recording.left ≤ room from bits) }
    ensures known { IfOk result (λ opened. IfSome opened.bits (λ count. (opened.recording.left ≡ count) × (opened.recording.sized ≡ true))) }
{
    if name == "-" {
        return Ok(Opened {
            recording: open_stream(alloc, Source::Standard(rt.reader()), from, bits)?,
            data: None,
            bits: None,
        });
    }
    let (file, data) = open_file(rt, name)?;
    if data.is_file() {
        return open_sized(alloc, file, data, from, bits);
    }
    Ok(Opened {
        recording: open_stream(alloc, Source::File(file), from, bits)?,
        data: Some(data),
        bits: None,
    })
}
