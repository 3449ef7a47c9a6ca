//! A case, as its text says it.

use pdh_watch::Kind as EventKind;

/// A worked case: runs that follow each other, each over the files that the one before it left.
#[derive(Drop)]
pub struct Case {
    /// What it is called.
    pub name: String,
    /// Its runs in order, of which there is at least one.
    pub runs: Vec<Run>,
}

/// A run: what it is given, its words, and what is expected of it. Where it has several rows of words, each row is run over
/// the same files, and the same is expected of each.
#[derive(Drop)]
pub struct Run {
    /// The line that begins it, from 1.
    pub line: usize,
    /// What the files are changed by before it, in order.
    pub givens: Vec<Given>,
    /// Rows of words of the program, without its own name.
    pub rows: Vec<Vec<String>>,
    /// The line of the status, and the status.
    pub status: Option<(usize, u8)>,
    /// The lines of the text, which are all of it.
    pub says: Vec<Said>,
    /// What is expected of files. A file of which nothing is said is as before.
    pub wants: Vec<Want>,
    /// The kinds of calls of which each is let fail once, in a run of its own.
    pub sweeps: Vec<Sweep>,
    /// The files of which each front is tried, in a run of its own.
    pub cuts: Vec<Cut>,
}

/// What a run is given.
#[derive(Drop)]
pub enum Given {
    /// Files that hold these bytes.
    File {
        /// Their names.
        names: Vec<String>,
        /// What each holds.
        items: Vec<Item>,
    },
    /// Files that aren't held.
    Gone {
        /// Their names.
        names: Vec<String>,
    },
    /// Files with room for so many bytes, in place of the room that each file gets.
    Room {
        /// Their names.
        names: Vec<String>,
        /// The bytes.
        bytes: u64,
    },
    /// Monitors in place of the program's own.
    Monitors {
        /// The monitors in order.
        monitors: Vec<Observer>,
    },
    /// A call that fails.
    Fail {
        /// Its kind.
        kind: Kind,
        /// Its number among those of its kind, from 0.
        number: u64,
    },
}

/// A monitor.
#[derive(Clone, Copy)]
pub enum Observer {
    /// One that counts the events of a kind.
    Counter {
        /// The kind.
        kind: EventKind,
    },
    /// One that keeps the first event of a kind.
    First {
        /// The kind.
        kind: EventKind,
    },
    /// One that counts the open alarms.
    Latch,
}

/// A kind of calls that may fail.
#[derive(Clone, Copy)]
pub enum Kind {
    /// Asking for a file's size.
    Size,
    /// Reading a file.
    Read,
    /// Making a file empty.
    Start,
    /// Adding to a file.
    Append,
    /// Writing to the output.
    Write,
}

/// A part of a file's bytes.
#[derive(Drop)]
pub enum Item {
    /// Bytes, so many times.
    Bytes {
        /// The bytes.
        bytes: Vec<u8>,
        /// How often they stand there.
        times: usize,
    },
    /// Bytes of the shift register.
    Pattern {
        /// The seed of the register.
        seed: u32,
        /// The leaf, or None for the place of the file among the names of its line.
        leaf: Option<u32>,
        /// How many bytes.
        bytes: usize,
    },
    /// The first bytes of a file: of that at the same place among these names, or of the one name.
    First {
        /// How many bytes, or all where there are fewer.
        bytes: usize,
        /// The names.
        names: Vec<String>,
    },
    /// Turns a bit of the bytes so far.
    Flip {
        /// Its number, from 0.
        bit: usize,
    },
    /// Begins a group.
    Open,
    /// Ends a group, which stands there so many times.
    Close {
        /// How often.
        times: usize,
    },
}

/// A line of the text.
#[derive(Drop)]
pub struct Said {
    /// The line that expects it.
    pub line: usize,
    /// The text, in which `{NAME}` stands for the number of bits that the file held before the run.
    pub text: String,
}

/// What is expected of files.
#[derive(Drop)]
pub struct Want {
    /// The line that expects it.
    pub line: usize,
    /// The names of the files.
    pub names: Vec<String>,
    /// What is expected of each.
    pub wanted: Wanted,
}

/// What is expected of a file.
#[derive(Drop)]
pub enum Wanted {
    /// That it holds exactly these bytes.
    Holds {
        /// The bytes.
        items: Vec<Item>,
    },
    /// That it holds so many bytes.
    Has {
        /// How many.
        bytes: usize,
    },
    /// That its bytes have this digest.
    Digest {
        /// The SHA-256 digest, in hexadecimal.
        digest: String,
    },
    /// That its bytes are the first ones of another file.
    Begins {
        /// The others' names, as many as those of the line, or one.
        others: Vec<String>,
        /// The most bits that the file holds.
        most: u64,
        /// By how many bits it may be shorter than that.
        short: u64,
    },
    /// That it is as before the run.
    Same,
    /// That it isn't held.
    Absent,
}

/// The run again, for each call of a kind, which is let fail.
#[derive(Clone, Copy)]
pub struct Sweep {
    /// The line that asks for it.
    pub line: usize,
    /// The kind.
    pub kind: Kind,
}

/// The run again, for each front of a file.
#[derive(Drop)]
pub struct Cut {
    /// The line that asks for it.
    pub line: usize,
    /// The file.
    pub name: String,
    /// How many bytes the shortest front has.
    pub least: usize,
}

impl Kind {
    /// The word for it.
    pub fn word(self) -> &'static str {
        match self {
            Kind::Size => "size",
            Kind::Read => "read",
            Kind::Start => "start",
            Kind::Append => "append",
            Kind::Write => "write",
        }
    }
}
