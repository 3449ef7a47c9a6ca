//! How large the rows of a picture are, in pixels.

ghost use Rattle.pdh_picture.specs.Sizes.{AreApart};

/// A lane of a row: where it begins below the row's upper edge, and how high it is. A lane that is 0 high isn't there.
#[derive(Clone, Copy)]
pub struct Lane {
    /// Below the row's upper edge.
    pub top: u64,
    /// Its height.
    pub height: u64,
}

/// Where the lanes of a row lie, and how high they are.
#[derive(Clone, Copy)]
pub struct Sizes {
    /// The height of the row.
    pub height: u64,
    /// Errored blocks.
    pub near: Lane,
    /// Aligned or not.
    pub state: Lane,
    /// By how much what is wrong is higher than that, above and below.
    pub over: u64,
    /// Remote alarms.
    pub alarm: Lane,
    /// Errors that the far end told.
    pub far: Lane,
    /// The size of the text.
    pub font: u64,
}

// How many rows are few enough for plain ones.
const PLAIN_ROWS: usize = 24;

// A row of a node that can have errored blocks.
const TALL: Sizes = Sizes {
    height: 48,
    near: Lane { top: 2, height: 10 },
    state: Lane {
        top: 15,
        height: 15,
    },
    over: 2,
    alarm: Lane { top: 34, height: 3 },
    far: Lane { top: 39, height: 7 },
    font: 12,
};

// A row of another node.
const PLAIN: Sizes = Sizes {
    height: 24,
    near: Lane { top: 0, height: 0 },
    state: Lane { top: 5, height: 11 },
    over: 2,
    alarm: Lane { top: 19, height: 3 },
    far: Lane { top: 22, height: 0 },
    font: 11,
};

// The same where there are many.
const SMALL: Sizes = Sizes {
    height: 14,
    near: Lane { top: 0, height: 0 },
    state: Lane { top: 3, height: 7 },
    over: 1,
    alarm: Lane { top: 11, height: 2 },
    far: Lane { top: 13, height: 0 },
    font: 9,
};

/// The sizes of the row of a node of a level, in a picture with so many rows.
pub fn sizes_of(level: &str, rows: usize) -> Sizes
    ensures { AreApart result }
{
    match level {
        "DS3" | "E1" | "DS1" => TALL,
        _ if rows > PLAIN_ROWS => SMALL,
        _ => PLAIN,
    }
}
