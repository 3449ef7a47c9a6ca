//! Filling memory from a reader.

ghost use Rattle.std.specs.Prelude.{◌≡◌, ◌<◌, ◌≤◌, length, take, IfOk, OnErr};
ghost use Rattle.std.specs.Io.{ReadsAtMost};
ghost use Rattle.std.specs.Io.KnownBytes.{Consumes, IsAtEnd, Keeps};
ghost use Rattle.pdh_recording.specs.declared.filling.End.TheVariants.{Full as IsFull, Ended as HasEnded};

use std::io::{self, Error, ErrorKind, Read};

/// Why no more bytes came.
#[derive(Clone, Copy, Debug, PartialEq, Eq)]
pub enum End {
    /// The memory is full.
    Full,
    /// The reader has ended.
    Ended,
    /// The reader failed.
    Failed,
}

/// How many bytes came, and why no more.
#[derive(Clone, Copy, Debug, PartialEq, Eq)]
pub struct Filled {
    /// How many.
    pub count: usize,
    /// Why no more.
    pub end: End,
}

// One read, which is made again where a signal interrupts it.
fn read_some<R: Read>(reader: &mut R, buffer: &mut [u8]) -> io::Result<usize>
    ensures bound { ReadsAtMost result buffer.new }
    ensures read { IfOk result (λ n. Consumes (R.remaining reader.old) (R.remaining reader.new) (take n buffer.new)) }
    ensures ended { IfOk result (λ n. n ≡ 0 → 0 < length buffer.old → IsAtEnd (R.remaining reader.new)) }
    ensures failed { OnErr result (Keeps (R.remaining reader.old) (R.remaining reader.new)) }
{
    for _turn in 0..u64::MAX {
        match reader.read(buffer) {
            Ok(count) => return Ok(count),
            Err(e) => {
                if e.kind() != ErrorKind::Interrupted {
                    return Err(e);
                }
            }
        }
    }
    Err(Error::from(ErrorKind::TimedOut))
}

/// Reads bytes until the memory is full, the reader has ended, or it fails.
pub fn fill<R: Read>(reader: &mut R, buffer: &mut [u8]) -> Filled
    ensures few { result.count ≤ length buffer.new }
    ensures read { Consumes (R.remaining reader.old) (R.remaining reader.new) (take result.count buffer.new) }
    ensures full { result.end ≡ IsFull → result.count ≡ length buffer.new }
    ensures ended { result.end ≡ HasEnded → IsAtEnd (R.remaining reader.new) }
{
    let mut count = 0;
    while count < buffer.len() {
        match read_some(reader, &mut buffer[count..]) {
            Ok(0) => {
                return Filled {
                    count,
                    end: End::Ended,
                };
            }
            Ok(more) => count += more,
            Err(_) => {
                return Filled {
                    count,
                    end: End::Failed,
                };
            }
        }
    }
    Filled {
        count,
        end: End::Full,
    }
}
