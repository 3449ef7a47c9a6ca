//! The reading of cases.

use crate::case::{Case, Given, Observer, Want, Wanted};
use crate::fault::{CaseFault, Fault};
use crate::items::{count, items, number};
use crate::names::names_of;
use crate::reader::Reader;
use crate::statement::{KINDS, Statement, kind_of, statement_of};
use bitflags::Flags;
use pdh_watch::Kind as EventKind;
use std::alloc::{AllocError, Global};

fn words_of(alloc: Global, text: &str) -> Result<Vec<String>, AllocError> {
    let mut words = Vec::new(alloc);
    for word in text.split_whitespace() {
        words.push(String::from_str(alloc, word)?)?;
    }
    Ok(words)
}

// The only word.
fn one_word(words: &[String]) -> Result<&str, Fault> {
    match words {
        [only] => Ok(only.as_str()),
        _ => Err(Fault::BadWords),
    }
}

// The two words.
fn two_words(words: &[String]) -> Result<(&str, &str), Fault> {
    match words {
        [first, second] => Ok((first.as_str(), second.as_str())),
        _ => Err(Fault::BadWords),
    }
}

// The names that the only word stands for.
fn only_names(alloc: Global, words: &[String]) -> Result<Vec<String>, Fault> {
    names_of(alloc, one_word(words)?)
}

// ---- what a run is given

fn file(alloc: Global, words: &[String]) -> Result<Given, Fault> {
    let [name, rest @ ..] = words else {
        return Err(Fault::BadWords);
    };
    let names = names_of(alloc, name.as_str())?;
    let items = items(alloc, rest)?;
    Ok(Given::File { names, items })
}

fn gone(alloc: Global, words: &[String]) -> Result<Given, Fault> {
    let names = only_names(alloc, words)?;
    Ok(Given::Gone { names })
}

fn room(alloc: Global, words: &[String]) -> Result<Given, Fault> {
    let (name, bytes) = two_words(words)?;
    let bytes = number(bytes)?;
    let names = names_of(alloc, name)?;
    Ok(Given::Room { names, bytes })
}

fn fail(words: &[String]) -> Result<Given, Fault> {
    let (word, place) = two_words(words)?;
    let kind = kind_of(word)?;
    let number = number(place)?;
    Ok(Given::Fail { kind, number })
}

// The kind of events that a word names.
fn event_kind(name: &str) -> Result<EventKind, Fault> {
    EventKind::from_name(name).ok_or(Fault::BadWords)
}

fn observer(word: &str) -> Result<Observer, Fault> {
    let Some((form, name)) = word.split_once(':') else {
        return if word == "latch" {
            Ok(Observer::Latch)
        } else {
            Err(Fault::BadWords)
        };
    };
    let kind = event_kind(name)?;
    match form {
        "counter" => Ok(Observer::Counter { kind }),
        "first" => Ok(Observer::First { kind }),
        _ => Err(Fault::BadWords),
    }
}

fn monitors(alloc: Global, words: &[String]) -> Result<Given, Fault> {
    let mut monitors = Vec::new(alloc);
    for word in words {
        monitors.push(observer(word.as_str())?)?;
    }
    Ok(Given::Monitors { monitors })
}

fn given(alloc: Global, statement: Statement, words: &[String]) -> Result<Given, Fault> {
    match statement {
        Statement::File => file(alloc, words),
        Statement::Gone => gone(alloc, words),
        Statement::Room => room(alloc, words),
        Statement::Monitors => monitors(alloc, words),
        _ => fail(words),
    }
}

// ---- what is expected

fn status(words: &[String]) -> Result<u8, Fault> {
    let word = one_word(words)?;
    word.parse::<u8>().map_err(|_| Fault::BadNumber)
}

fn holds(alloc: Global, line: usize, words: &[String]) -> Result<Want, Fault> {
    let [name, rest @ ..] = words else {
        return Err(Fault::BadWords);
    };
    let names = names_of(alloc, name.as_str())?;
    let items = items(alloc, rest)?;
    Ok(Want {
        line,
        names,
        wanted: Wanted::Holds { items },
    })
}

fn has(alloc: Global, line: usize, words: &[String]) -> Result<Want, Fault> {
    let (name, bytes) = two_words(words)?;
    let bytes = count(bytes)?;
    let names = names_of(alloc, name)?;
    Ok(Want {
        line,
        names,
        wanted: Wanted::Has { bytes },
    })
}

// A digest has 32 bytes, each written by two digits.
fn digest(alloc: Global, line: usize, words: &[String]) -> Result<Want, Fault> {
    let (name, digest) = two_words(words)?;
    if digest.len() != 64 {
        return Err(Fault::BadBytes);
    }
    let digest = String::from_str(alloc, digest)?;
    let names = names_of(alloc, name)?;
    Ok(Want {
        line,
        names,
        wanted: Wanted::Digest { digest },
    })
}

fn begins(alloc: Global, line: usize, words: &[String]) -> Result<Want, Fault> {
    let [name, other, entered, most, shorter, short] = words else {
        return Err(Fault::BadWords);
    };
    if entered.as_str() != "entered" || shorter.as_str() != "short" {
        return Err(Fault::BadWords);
    }
    let most = number(most.as_str())?;
    let short = number(short.as_str())?;
    let names = names_of(alloc, name.as_str())?;
    let others = names_of(alloc, other.as_str())?;
    Ok(Want {
        line,
        names,
        wanted: Wanted::Begins {
            others,
            most,
            short,
        },
    })
}

fn same(alloc: Global, line: usize, words: &[String]) -> Result<Want, Fault> {
    let names = only_names(alloc, words)?;
    let wanted = Wanted::Same;
    Ok(Want {
        line,
        names,
        wanted,
    })
}

fn absent(alloc: Global, line: usize, words: &[String]) -> Result<Want, Fault> {
    let names = only_names(alloc, words)?;
    let wanted = Wanted::Absent;
    Ok(Want {
        line,
        names,
        wanted,
    })
}

// What is expected of files.
fn want(alloc: Global, statement: Statement, line: usize, words: &[String]) -> Result<Want, Fault> {
    match statement {
        Statement::Holds => holds(alloc, line, words),
        Statement::Has => has(alloc, line, words),
        Statement::Digest => digest(alloc, line, words),
        Statement::Begins => begins(alloc, line, words),
        Statement::Same => same(alloc, line, words),
        _ => absent(alloc, line, words),
    }
}

// The kinds of calls that the words name, or all.
fn add_sweeps(reader: &mut Reader, line: usize, words: &[String]) -> Result<(), Fault> {
    for word in words {
        reader.add_sweep(line, kind_of(word.as_str())?)?;
    }
    Ok(())
}

fn add_all_sweeps(reader: &mut Reader, line: usize) -> Result<(), Fault> {
    for (_, kind) in KINDS {
        reader.add_sweep(line, kind)?;
    }
    Ok(())
}

fn add_cuts(reader: &mut Reader, line: usize, words: &[String]) -> Result<(), Fault> {
    match words {
        [name] => reader.add_cut(line, name.as_str(), 0),
        [name, least] => reader.add_cut(line, name.as_str(), count(least.as_str())?),
        _ => Err(Fault::BadWords),
    }
}

// Reads a line whose words are parted by spaces.
fn read_words(
    reader: &mut Reader,
    statement: Statement,
    line: usize,
    words: Vec<String>,
    alloc: Global,
) -> Result<(), Fault> {
    match statement {
        Statement::Run => reader.add_row(line, words),
        Statement::File
        | Statement::Gone
        | Statement::Room
        | Statement::Monitors
        | Statement::Fail => { reader.add_given(given(alloc, statement, words.as_slice())?) }
        Statement::Status => reader.set_status(line, status(words.as_slice())?),
        Statement::Sweep if words.is_empty() => add_all_sweeps(reader, line),
        Statement::Sweep => add_sweeps(reader, line, words.as_slice()),
        Statement::Cuts => add_cuts(reader, line, words.as_slice()),
        _ => reader.add_want(want(alloc, statement, line, words.as_slice())?),
    }
}

// Reads a line behind its first word.
fn read_rest(
    alloc: Global,
    reader: &mut Reader,
    line: usize,
    statement: Statement,
    rest: &str,
) -> Result<(), Fault> {
    match statement {
        Statement::Line => reader.add_text(rest, "\n"),
        Statement::Part => reader.add_text(rest, ""),
        Statement::Case => reader.begin_case(rest),
        Statement::Says => reader.add_said(line, rest),
        _ => {
            let words = words_of(alloc, rest)?;
            read_words(reader, statement, line, words, alloc)
        }
    }
}

fn read_line(alloc: Global, reader: &mut Reader, line: usize, text: &str) -> Result<(), Fault> {
    let text = text.trim_start();
    if text.is_empty() || text.starts_with('#') {
        return Ok(());
    }
    let (word, rest) = text.split_once(' ').unwrap_or((text, ""));
    let statement = statement_of(word)?;
    read_rest(alloc, reader, line, statement, rest)
}

/// The cases of a text, or its first fault.
pub fn read(alloc: Global, text: &str) -> Result<Vec<Case>, CaseFault> {
    let mut reader = Reader::new(alloc);
    let mut line = 0usize;
    for text in text.lines() {
        line = line.saturating_add(1);
        read_line(alloc, &mut reader, line, text).map_err(|fault| CaseFault { line, fault })?;
    }
    reader.finish().map_err(|fault| CaseFault { line, fault })
}
