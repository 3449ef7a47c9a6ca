//! What a cell holds.

ghost use Rattle.std.specs.Prelude.{◌≡◌};
ghost use Rattle.pdh_cells.specs.Contents.{blank, joined, cell_of_state, cell_of_block, cell_of_far, cell_of_code};

use pdh_timeline::State;

/// A code of the far end alarm and control channel.
#[derive(Clone, Copy, Debug, PartialEq, Eq)]
pub struct Code {
    /// The code.
    pub code: u8,
    /// The bit at which it came.
    pub place: u64,
}

/// What came in the bits of a cell.
#[derive(Clone, Copy, Debug, PartialEq, Eq)]
pub struct Cell {
    /// One of them is out of alignment.
    pub out: bool,
    /// One of them is in AIS.
    pub ais: bool,
    /// The far end tells a remote alarm at one of them.
    pub alarm: bool,
    /// Errored blocks. The count stands at `u64::MAX`.
    pub near: u64,
    /// Errors that the far end told. The count stands at `u64::MAX`.
    pub far: u64,
    /// The first code.
    pub code: Option<Code>,
}

impl Cell {
    /// Nothing came.
    pub fn blank() -> Cell
        ensures { result ≡ blank }
    {
        Cell {
            out: false,
            ais: false,
            alarm: false,
            near: 0,
            far: 0,
            code: None,
        }
    }

    /// The cell of the bits of two, the first of which lies before the other.
    pub fn join(self, next: Cell) -> Cell
        ensures { result ≡ joined self next }
    {
        let near = self.near.saturating_add(next.near);
        let far = self.far.saturating_add(next.far);
        let code = self.code.or(next.code);
        Cell {
            out: self.out || next.out,
            ais: self.ais || next.ais,
            alarm: self.alarm || next.alarm,
            near,
            far,
            code,
        }
    }

    /// A state stands.
    pub fn of_state(state: State) -> Cell
        ensures { result ≡ cell_of_state state }
    {
        let mut cell = Cell::blank();
        match state {
            State::Out => cell.out = true,
            State::Ais => cell.ais = true,
            State::Alarm => cell.alarm = true,
        }
        cell
    }

    /// An errored block came.
    pub fn of_block() -> Cell
        ensures { result ≡ cell_of_block }
    {
        let mut cell = Cell::blank();
        cell.near = 1;
        cell
    }

    /// The far end told an error.
    pub fn of_far() -> Cell
        ensures { result ≡ cell_of_far }
    {
        let mut cell = Cell::blank();
        cell.far = 1;
        cell
    }

    /// A code came.
    pub fn of_code(code: Code) -> Cell
        ensures { result ≡ cell_of_code code }
    {
        let mut cell = Cell::blank();
        cell.code = Some(code);
        cell
    }
}
