//! The rows of the schedule that would make a line again, of the marks of its pieces: lists in memory, one for each tributary, of
//! bits that tell whether an additional bit is read in a piece.

ghost use Rattle.std.specs.Prelude.{◌≡◌, ◌<◌, ◌≤◌, ◌+◌, ◌*◌, ◌++◌, ◌∷◌, [], ℕ, true, false, length, decimal, IsTrue, OnOk, OnErr};
ghost use Rattle.std.specs.Str.{bytes_eq};
ghost use Rattle.pdh_bits.specs.Bits.{bits_of};
ghost use Rattle.pdh_edge.specs.Ports.{Puts, PutsPart, HasCause, for_leaf};
ghost use Rattle.pdh_levels.specs.Levels.{most_tributaries};
ghost use Rattle.pdh_row_text.specs.Form.{counts_form};
ghost use Rattle.pdh_clock.specs.Written.{row_line};
ghost use Rattle.pdh_smoothing.specs.Again.{lists_in, pieces_marked, AreMarks, count_marked, counts_marked, frames_marked, rows_text};

use pdh_edge::{Drain, Failed, MemPort};
use pdh_packed::Packed;
use pdh_shape::Shape;
use pdh_text::Text;

/// The most bits of a row.
pub const ROW_BITS: usize = 2560;

// How many bits of a tributary are read in a piece.
fn count_at<S: Shape>(marks: &MemPort, piece: usize, trib: u8) -> u64
    requires known { trib < S.TRIBS }
    requires marks { AreMarks S.shape (lists_in marks.now) }
    requires inside { piece < pieces_marked (lists_in marks.now) }
    ensures { result ≡ count_marked S.shape (lists_in marks.now) piece trib }
{
    let more = marks.output(u32::from(trib)).get(piece);
    if more {
        u64::from(S::LOW) + 1
    } else {
        u64::from(S::LOW)
    }
}

// Whether as many bits of each tributary are read in one piece as in another.
fn are_alike<S: Shape>(marks: &MemPort, one: usize, other: usize) -> bool
    requires marks { AreMarks S.shape (lists_in marks.now) }
    requires one { one < pieces_marked (lists_in marks.now) }
    requires other { other < pieces_marked (lists_in marks.now) }
    ensures alike { result ≡ true → counts_marked S.shape (lists_in marks.now) other
        ≡ counts_marked S.shape (lists_in marks.now) one }
    ensures other { result ≡ false → bytes_eq (counts_marked S.shape (lists_in marks.now) one)
        (counts_marked S.shape (lists_in marks.now) other) ≡ false }
{
    for trib in 0..S::TRIBS {
        let here = count_at::<S>(marks, one, trib);
        let there = count_at::<S>(marks, other, trib);
        if here != there {
            return false;
        }
    }
    true
}

// How many pieces from one on are alike, itself among them, where there are pieces up to an end.
fn run_from<S: Shape>(marks: &MemPort, first: usize, end: usize) -> usize
    requires marks { AreMarks S.shape (lists_in marks.now) }
    requires some { first < end }
    requires end { end ≡ pieces_marked (lists_in marks.now) }
    ensures some { 0 < result }
    ensures within { first + result ≤ end }
    ensures alike { (k : ℕ) → k < result → counts_marked S.shape (lists_in marks.now) (first + k)
        ≡ counts_marked S.shape (lists_in marks.now) first }
    ensures ends { first + result < end → bytes_eq (counts_marked S.shape (lists_in marks.now) first)
        (counts_marked S.shape (lists_in marks.now) (first + result)) ≡ false }
{
    for next in first + 1..end {
        let alike = are_alike::<S>(marks, first, next);
        if !alike {
            return next - first;
        }
    }
    end - first
}

// Appends a number behind a space.
#[tactic(auto, using(pdh_text::proofs::Lengths::digits))]
fn push_number(row: &mut Text, number: u64)
    requires { length row.old + 21 ≤ 320 }
    ensures bytes { row.new ≡ row.old ++ 32 ∷ decimal number }
    ensures few { length row.new ≤ length row.old + 21 }
{
    row.text(" ");
    row.number(number);
}

// The row of so many frames, each with the reads of a piece.
fn row_of<S: Shape>(marks: &MemPort, piece: usize, frames: u64) -> Text
    requires few { S.TRIBS ≤ most_tributaries }
    requires marks { AreMarks S.shape (lists_in marks.now) }
    requires inside { piece < pieces_marked (lists_in marks.now) }
    ensures bytes { result ≡ row_line (counts_form [] frames (counts_marked S.shape (lists_in marks.now) piece)) }
    ensures few { 8 * length result ≤ ROW_BITS }
{
    let mut row = Text::new();
    row.text("/");
    push_number(&mut row, frames);
    for trib in 0..S::TRIBS {
        push_number(&mut row, count_at::<S>(marks, piece, trib));
    }
    row.text("\n");
    row
}

// Puts a row to a list of a port. `bits` has room for it.
fn put_row<S: Shape, D: Drain>(
    marks: &MemPort,
    piece: usize,
    frames: u64,
    list: u32,
    bits: &mut Packed,
    port: &mut D,
) -> Result<(), Failed>
    requires few { S.TRIBS ≤ most_tributaries }
    requires marks { AreMarks S.shape (lists_in marks.now) }
    requires inside { piece < pieces_marked (lists_in marks.now) }
    requires room { ROW_BITS ≤ bits.old.capacity }
    requires list { IsTrue ((D.outputs port.old).holds list) }
    ensures room { bits.new.capacity ≡ bits.old.capacity }
    ensures ok { OnOk result (Puts (for_leaf list (bits_of (row_line (counts_form [] frames
        (counts_marked S.shape (lists_in marks.now) piece))))) (D.outputs port.old) (D.outputs port.new)) }
    ensures err { OnErr result (PutsPart (for_leaf list (bits_of (row_line (counts_form [] frames
        (counts_marked S.shape (lists_in marks.now) piece))))) (D.outputs port.old) (D.outputs port.new)) }
    ensures cause { HasCause (D.drain_faults port.old) (D.drain_faults port.new) result }
    ensures drained { D.drained port.old port.new }
{
    let row = row_of::<S>(marks, piece, frames);
    bits.clear();
    bits.append_bytes(row.bytes());
    port.put_all(list, bits)
}

/// Puts the text of the schedule that would make a line again to a list of a port, a row at a time. It fails only where the port
/// failed. `bits` has room for a row.
pub fn put_rows<S: Shape, D: Drain>(
    marks: &MemPort,
    list: u32,
    bits: &mut Packed,
    port: &mut D,
) -> Result<(), Failed>
    requires some { 0 < S.TRIBS }
    requires few { S.TRIBS ≤ most_tributaries }
    requires marks { AreMarks S.shape (lists_in marks.now) }
    requires room { ROW_BITS ≤ bits.old.capacity }
    requires list { IsTrue ((D.outputs port.old).holds list) }
    ensures ok { OnOk result (Puts (for_leaf list (bits_of (rows_text (frames_marked S.shape
        (lists_in marks.now) 1)))) (D.outputs port.old) (D.outputs port.new)) }
    ensures err { OnErr result (PutsPart (for_leaf list (bits_of (rows_text (frames_marked S.shape
        (lists_in marks.now) 1)))) (D.outputs port.old) (D.outputs port.new)) }
    ensures cause { HasCause (D.drain_faults port.old) (D.drain_faults port.new) result }
    ensures drained { D.drained port.old port.new }
{
    let pieces = marks.output(0).len();
    let mut piece = 1;
    while piece < pieces {
        let frames = run_from::<S>(marks, piece, pieces);
        put_row::<S, D>(marks, piece, frames as u64, list, bits, port)?;
        piece += frames;
    }
    Ok(())
}
