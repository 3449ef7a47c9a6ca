//! The words that begin a line.

use crate::case::Kind;
use crate::fault::Fault;

/// What a line is, by the word that begins it.
#[derive(Clone, Copy)]
pub enum Statement {
    Case,
    File,
    Line,
    Part,
    Gone,
    Room,
    Monitors,
    Fail,
    Run,
    Status,
    Says,
    Holds,
    Has,
    Digest,
    Begins,
    Same,
    Absent,
    Sweep,
    Cuts,
}

const STATEMENTS: [(&str, Statement); 19] = [
    ("case", Statement::Case),
    ("file", Statement::File),
    ("|", Statement::Line),
    (">", Statement::Part),
    ("gone", Statement::Gone),
    ("room", Statement::Room),
    ("monitors", Statement::Monitors),
    ("fail", Statement::Fail),
    ("run", Statement::Run),
    ("status", Statement::Status),
    ("says", Statement::Says),
    ("holds", Statement::Holds),
    ("has", Statement::Has),
    ("sha256", Statement::Digest),
    ("begins", Statement::Begins),
    ("same", Statement::Same),
    ("absent", Statement::Absent),
    ("sweep", Statement::Sweep),
    ("cuts", Statement::Cuts),
];

/// All kinds of calls, with their words.
pub const KINDS: [(&str, Kind); 5] = [
    ("size", Kind::Size),
    ("read", Kind::Read),
    ("start", Kind::Start),
    ("append", Kind::Append),
    ("write", Kind::Write),
];

/// What a line is that begins with this word.
pub fn statement_of(word: &str) -> Result<Statement, Fault> {
    for (known, statement) in STATEMENTS {
        if known == word {
            return Ok(statement);
        }
    }
    Err(Fault::UnknownWord)
}

/// The kind of calls that a word names.
pub fn kind_of(word: &str) -> Result<Kind, Fault> {
    for (known, kind) in KINDS {
        if known == word {
            return Ok(kind);
        }
    }
    Err(Fault::BadWords)
}
