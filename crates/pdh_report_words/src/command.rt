//! The options, and the reading of words by them.

ghost use Rattle.std.specs.Prelude.{◌≡◌, IfOk};
ghost use Rattle.clap.specs.Words.{found_of};
ghost use Rattle.pdh_report_words.specs.Asked.{chain_of, IsAsked};
ghost use Rattle.pdh_report_words.specs.Files.{FilesApart};

use crate::VERSION;
use crate::names::common_name;
use crate::refusal::Refusal;
use crate::request::{Outputs, Request};
use clap::{Arg, ArgAction, ArgMatches, Command, value_parser};
use pdh_candidates::{Word, all_words};
use std::alloc::{AllocError, Global};

// The words of `--chain`, the shallow chains before the deep ones.
static CHAINS: [&str; 13] = [
    "e12", "e23", "e34", "e13", "e24", "e14", "m12", "m23", "m13", "c13", "e1", "ds1-sf", "ds1-esf",
];

// What a word of `--chain` means.
fn chain_of(text: &str) -> Option<Word>
    ensures { result ≡ chain_of text.now }
{
    all_words().iter().copied().find(|word| text == word.name())
}

// An option with a value.
fn with_value<'a>(alloc: Global, name: &'a str, value: &'a str, help: &'a str) -> Arg<'a> {
    Arg::new(alloc, name)
        .long(name)
        .value_name(value)
        .help(help)
}

// An option with none.
fn flag<'a>(alloc: Global, name: &'a str, help: &'a str) -> Arg<'a> {
    Arg::new(alloc, name)
        .long(name)
        .action(ArgAction::SetTrue)
        .help(help)
}

// What the line is, and how its bits are read.
fn with_reading<'a>(alloc: Global, command: Command<'a>) -> Result<Command<'a>, AllocError> {
    let chain = with_value(
        alloc,
        "chain",
        "CHAIN",
        "What the line is; without it every chain is tried",
    );
    let from = with_value(alloc, "from", "BIT", "Begin at this bit");
    let bits = with_value(alloc, "bits", "N", "Read no more than N bits");
    let lsb_first = "The first bit of a byte is its least significant one";
    command
        .arg(chain.value_parser(CHAINS.as_slice()))?
        .arg(flag(alloc, "lsb-first", lsb_first))?
        .arg(flag(alloc, "invert", "Every bit is inverted"))?
        .arg(from.value_parser(value_parser!(u64)).default_value("0"))?
        .arg(bits.value_parser(value_parser!(u64).range(1..)))
}

// What is told of it.
fn with_outputs<'a>(alloc: Global, command: Command<'a>) -> Result<Command<'a>, AllocError> {
    let events = with_value(alloc, "events", "FILE", "Write every event as CSV");
    let json = with_value(alloc, "json", "FILE", "Write the table as JSON");
    let picture = with_value(alloc, "picture", "FILE", "Draw a picture (SVG)");
    command
        .arg(flag(alloc, "all", "List every node in the table"))?
        .arg(events)?
        .arg(json)?
        .arg(picture)
}

// The command with its options.
fn command<'a>(alloc: Global) -> Result<Command<'a>, AllocError> {
    let file = Arg::new(alloc, "file")
        .value_name("FILE")
        .required(true)
        .help("Recording, eight bits a byte; - is the standard input");
    let command = Command::new(alloc, "pdhreport")
        .version(VERSION)
        .about("Tells what a recorded line is and what happened on it")
        .arg(file)?;
    with_outputs(alloc, with_reading(alloc, command)?)
}

// What was asked for. The options were checked, so nothing is missing.
fn request_of<'a>(matches: &ArgMatches<'a>) -> Request<'a>
    ensures { IsAsked (found_of matches.now) result }
{
    Request {
        file: matches.get_str("file").unwrap_or(""),
        chain: matches.get_str("chain").and_then(chain_of),
        lsb_first: matches.get_flag("lsb-first"),
        inverted: matches.get_flag("invert"),
        from: matches.get_one::<u64>("from").unwrap_or(0),
        bits: matches.get_one::<u64>("bits"),
        lists_all: matches.get_flag("all"),
        outputs: Outputs {
            events: matches.get_str("events"),
            json: matches.get_str("json"),
            picture: matches.get_str("picture"),
        },
    }
}

/// What the words ask for, the first of which is the name of the program; or the help, the version, or what is wrong with them.
pub fn read_words<'a>(alloc: Global, words: &'a [String]) -> Result<Request<'a>, Refusal>
    ensures { IfOk result FilesApart }
{
    let matches = command(alloc)?.try_get_matches_from(words)?;
    let request = request_of(&matches);
    if let Some((one, other)) = common_name(&request) {
        return Err(Refusal::OneFile(one, other));
    }
    Ok(request)
}
