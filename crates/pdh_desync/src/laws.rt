//! The bounds on a far store and on its pieces, for every shape. Each function does nothing: what it ensures is the law.
ghost use Rattle.std.specs.Prelude.{◌<◌, ◌≤◌, ◌+◌, ◌-◌, ◌*◌, ◌⊎◌, ◌≡◌, ℕ, suc, Bool, List, length};
ghost use Rattle.pdh_shape.specs.OwnNumbers.{threshold, store_size};
ghost use Rattle.pdh_line.specs.Receiving.{received};
ghost use Rattle.pdh_desync.specs.FarStore.{FarPiece, pieces_of, start_fill, fill_before, fill_arrived, reads_over, comes_over, read_in_all, smooth};

use pdh_shape::Shape;

/// At each piece's start a far store holds as many bits as the threshold says, or one fewer.
pub fn far_fill_at_start<S: Shape>()
    ensures { (pieces : List FarPiece) (trib n : ℕ) → trib < S.TRIBS
        → (start_fill S.shape trib pieces n ≡ threshold) ⊎ (suc (start_fill S.shape trib pieces n) ≡ threshold) }
{}

/// Before each slot of a piece, and at its end, it holds at most 6 fewer and 4 more bits than the threshold says.
pub fn far_fill_before_slot<S: Shape>()
    ensures least { (pieces : List FarPiece) (trib n slot : ℕ) → trib < S.TRIBS → slot ≤ S.LEN
        → threshold ≤ fill_before S.shape trib pieces n slot + 6 }
    ensures most { (pieces : List FarPiece) (trib n slot : ℕ) → trib < S.TRIBS → slot ≤ S.LEN
        → fill_before S.shape trib pieces n slot ≤ threshold + 4 }
{}

/// So it does after the bit that arrives in a slot, before the slot's read; then its bits are no more than a store's.
pub fn far_fill_after_arrivals<S: Shape>()
    ensures least { (pieces : List FarPiece) (trib n slot : ℕ) → trib < S.TRIBS → slot < S.LEN
        → threshold ≤ fill_arrived S.shape trib pieces n slot + 6 }
    ensures most { (pieces : List FarPiece) (trib n slot : ℕ) → trib < S.TRIBS → slot < S.LEN
        → fill_arrived S.shape trib pieces n slot ≤ threshold + 4 }
    ensures room { (pieces : List FarPiece) (trib n slot : ℕ) → trib < S.TRIBS → slot < S.LEN
        → fill_arrived S.shape trib pieces n slot ≤ store_size }
{}

/// Over each run of pieces the reads are from what they bring at least to one bit more a piece, and differ from what came
/// by at most one.
pub fn far_reads_over_runs<S: Shape>()
    ensures least { (pieces : List FarPiece) (trib first run : ℕ) → trib < S.TRIBS
        → S.LOW * run ≤ reads_over S.shape trib pieces first run }
    ensures most { (pieces : List FarPiece) (trib first run : ℕ) → trib < S.TRIBS
        → reads_over S.shape trib pieces first run ≤ suc S.LOW * run }
    ensures ahead { (pieces : List FarPiece) (trib first run : ℕ) → trib < S.TRIBS
        → reads_over S.shape trib pieces first run ≤ comes_over S.shape trib pieces first run + 1 }
    ensures behind { (pieces : List FarPiece) (trib first run : ℕ) → trib < S.TRIBS
        → comes_over S.shape trib pieces first run ≤ reads_over S.shape trib pieces first run + 1 }
{}

/// What a line brings to a far store, and the ones with which it begins, are what is read and what is held; and as many bits come
/// out of it as are read, but for those ones.
pub fn far_store_balance<S: Shape>()
    ensures held { (line : List Bool) (trib : ℕ) → trib < S.TRIBS
        → threshold + length (received S.shape trib line)
        ≡ start_fill S.shape trib (pieces_of S.shape line) (length (pieces_of S.shape line)) + read_in_all S.shape trib line }
    ensures out { (line : List Bool) (trib : ℕ) → trib < S.TRIBS
        → length (smooth S.shape trib line) ≡ read_in_all S.shape trib line - threshold }
{}

/// Pieces don't overlap, and each covers a frame's length of the line.
pub fn far_pieces_fit<S: Shape>()
    ensures { (line : List Bool) → length (pieces_of S.shape line) * S.LEN ≤ length line }
{}
