//! What the runs of a frame tell of its slots, and where the bits of a tributary stand in the payload.
//! Each function does nothing: what it ensures is the law.
ghost use Rattle.std.specs.Prelude.{◌≡◌, ◌<◌, ◌+◌, ◌*◌, ◌%◌, ℕ, Bool, true, false, List, length, map, Some};
ghost use Rattle.std.specs.List.{flat_map, range_with_len, slice_index_or};
ghost use Rattle.pdh_shape.specs.Payload.{is_payload};
ghost use Rattle.pdh_shape.specs.Tributary.{turned, bits_read};
ghost use Rattle.pdh_runs.specs.declared.run.Run.{Run};
ghost use Rattle.pdh_runs.specs.Runs.{run_classes, AreRuns};
ghost use Rattle.pdh_runs.specs.Columns.{trib_of, payload_slots, payload_bits, trib_bits, column};

use pdh_shape::Shape;

/// Whether a slot is a payload slot is read off the runs.
pub fn classes_by_runs<S: Shape>()
    ensures { (runs : List Run) (slot : ℕ) → AreRuns S.shape runs → slot < S.LEN → slice_index_or (flat_map run_classes runs) slot false ≡ is_payload (S.shape.role slot) }
{}

/// The payload slots of a frame, in order, read tributaries 0, 1, .., TRIBS - 1, 0, 1, and so on;
/// there are LOW + 1 such turns, all whole.
pub fn payload_in_turn<S: Shape>()
    ensures count { length (payload_slots S.shape) ≡ S.TRIBS * (S.LOW + 1) }
    ensures turn { map (λ slot. trib_of (S.shape.role slot)) (payload_slots S.shape)
        ≡ map (λ p. Some (p % S.TRIBS)) (range_with_len 0 (S.TRIBS * (S.LOW + 1))) }
{}

/// The bits of a tributary in a frame, where that carries an additional bit of it, are its column of
/// the payload.
pub fn columns<S: Shape>()
    ensures slots { (frame : List Bool) (j : ℕ) → j < S.TRIBS → trib_bits S.shape j frame ≡ column S.TRIBS (S.LOW + 1) (payload_bits S.shape frame) j }
    ensures bits { (frame : List Bool) (j : ℕ) → j < S.TRIBS → bits_read S.shape j true frame ≡ map (turned (S.shape.inverted j)) (column S.TRIBS (S.LOW + 1) (payload_bits S.shape frame) j) }
{}
