//! The table of commands: each command with what its words tell, and which words ask for which.

ghost use Rattle.std.specs.Prelude.{◌≡◌, map, IfSome};
ghost use Rattle.std.specs.String.{string_bytes};
ghost use Rattle.pdh_words.specs.Commands.{chain_of, bias_of, framing_of, reading_of, conversion_of, showing_of, checking_of, sending_of, making_of, drilling_of, linking_of, form_of, smoothing_of, ds1_packing_of, ds1_unpacking_of, of_two as by_two, of_three as by_three, of_four as by_four, of_five as by_five, command_of, KeepsLimits};

use pdh_answers::Bits;
use pdh_chain::{Chain, all_chains};
use pdh_clock::Bias;
use pdh_ds1::Frame1;
use pdh_row_text::number;

/// What the words of a command line ask for.
#[derive(Clone, Copy, Debug, PartialEq, Eq)]
pub enum Command {
    /// `demux CHAIN` or `demux CHAIN bent`: takes a line apart.
    Demux {
        /// The chain of the line.
        chain: Chain,
        /// The file of the line.
        bits: Bits,
    },
    /// `mux CHAIN` or `mux c13 feac CODE`: makes a line from its leaves.
    Mux {
        /// The chain of the line.
        chain: Chain,
        /// The code below 64 that it sends over the far end alarm and control channel.
        feac: Option<u8>,
    },
    /// `muxslip CHAIN`: makes a line from its leaves, whose stores slip and go on.
    MuxSlip {
        /// The chain of the line.
        chain: Chain,
    },
    /// `clock check CHAIN`: tells whether a schedule is within the tolerance.
    ClockCheck {
        /// The chain of the schedule.
        chain: Chain,
    },
    /// `clock make CHAIN FRAMES BIAS`: makes a schedule from clock offsets.
    ClockMake {
        /// The chain of the schedule.
        chain: Chain,
        /// How many frames the schedule has.
        frames: u64,
        /// Which clocks are fast and which are slow.
        bias: Bias,
    },
    /// `inspect CHAIN` or `inspect CHAIN bent`: tells what the monitors saw of a line.
    Inspect {
        /// The chain of the line.
        chain: Chain,
        /// The file of the line.
        bits: Bits,
    },
    /// `inspect e1`: tells what the monitors saw of a line of CRC-4 multiframes (G.706, 4).
    InspectE1,
    /// `show CHAIN NUMBER`: shows a frame of a line, whatever the alignment.
    Show {
        /// The chain of the line.
        chain: Chain,
        /// The number of the frame, from 0.
        frame: u64,
    },
    /// `e1pack`: puts a payload into a line of CRC-4 multiframes (G.704, 2.3).
    E1Pack,
    /// `e1unpack`: takes the payload out of a line of CRC-4 multiframes (G.706, 4).
    E1Unpack,
    /// `ds1pack sf` or `ds1pack esf`: puts a payload into a line of superframes (T1.107).
    Ds1Pack {
        /// The form of the line.
        frame: Frame1,
    },
    /// `ds1unpack sf` or `ds1unpack esf`: takes the payload out of a line of superframes (T1.107).
    Ds1Unpack {
        /// The form of the line.
        frame: Frame1,
    },
    /// `smooth CHAIN`: takes a line of one multiplexer apart, and gives its tributaries out evenly.
    Smooth {
        /// The chain of the line.
        chain: Chain,
    },
    /// `disturb CHAIN`: changes bits of a line by a script.
    Disturb {
        /// The chain of the line.
        chain: Chain,
    },
    /// `drill CHAIN SEED FRAMES`: makes a line of test patterns, takes it apart again, and tells what came back.
    Drill {
        /// The chain of the line.
        chain: Chain,
        /// What the test patterns begin with, of at most 999,999,999.
        seed: u64,
        /// How many frames the line has.
        frames: u64,
    },
    /// `duplex CHAIN SEED FRAMES`: links two terminals by disturbed lines, and tells what both counted.
    Duplex {
        /// The chain of both lines.
        chain: Chain,
        /// What the test patterns begin with, of at most 999,999,999.
        seed: u64,
        /// How many frames each line has.
        frames: u64,
    },
}

// The chain that a word names.
fn chain(word: &str) -> Option<Chain>
    ensures { result ≡ chain_of word.now }
{
    all_chains()
        .iter()
        .copied()
        .find(|chain| word == chain.name())
}

// The form of a DS1 line that a word names.
fn form(word: &str) -> Option<Frame1>
    ensures { result ≡ form_of word.now }
{
    match word {
        "sf" => Some(Frame1::Super),
        "esf" => Some(Frame1::Extended),
        _ => None,
    }
}

// The clock offsets that a word names.
fn bias(word: &str) -> Option<Bias>
    ensures { result ≡ bias_of word.now }
{
    match word {
        "nominal" => Some(Bias::Nominal),
        "fast" => Some(Bias::Fast),
        "slow" => Some(Bias::Slow),
        "mixed" => Some(Bias::Mixed),
        _ => None,
    }
}

// The command of one word alone.
fn framing(word: &str) -> Option<Command>
    ensures { result ≡ framing_of word.now }
{
    match word {
        "e1pack" => Some(Command::E1Pack),
        "e1unpack" => Some(Command::E1Unpack),
        _ => None,
    }
}

// The command of one word and a chain that reads a line from this file.
fn reading(word: &str, chain: Chain, bits: Bits) -> Option<Command>
    ensures is { result ≡ reading_of word.now chain bits }
    ensures limits { IfSome result KeepsLimits }
{
    match word {
        "demux" => Some(Command::Demux { chain, bits }),
        "inspect" => Some(Command::Inspect { chain, bits }),
        _ => None,
    }
}

// The smoothing of a line, where its chain has one multiplexer.
fn smoothing(chain: Chain) -> Option<Command>
    ensures is { result ≡ smoothing_of chain }
    ensures limits { IfSome result KeepsLimits }
{
    if chain.levels().len() != 1 {
        return None;
    }
    Some(Command::Smooth { chain })
}

// The command of one word and a chain.
fn conversion(word: &str, chain: Chain) -> Option<Command>
    ensures is { result ≡ conversion_of word.now chain }
    ensures limits { IfSome result KeepsLimits }
{
    match word {
        "mux" => Some(Command::Mux { chain, feac: None }),
        "muxslip" => Some(Command::MuxSlip { chain }),
        "disturb" => Some(Command::Disturb { chain }),
        "smooth" => smoothing(chain),
        _ => reading(word, chain, Bits::Line),
    }
}

// The showing of a frame of a line, by its chain and its number.
fn showing(chain_word: &str, frame: &str) -> Option<Command>
    ensures is { result ≡ showing_of chain_word.now frame.now }
    ensures limits { IfSome result KeepsLimits }
{
    let chain = chain(chain_word)?;
    let frame = u64::from(number(frame.as_bytes())?);
    Some(Command::Show { chain, frame })
}

// The check of a schedule, by its chain.
fn checking(chain_word: &str) -> Option<Command>
    ensures { result ≡ checking_of chain_word.now }
{
    let chain = chain(chain_word)?;
    Some(Command::ClockCheck { chain })
}

// The making of a line with C-bit parity that sends a code.
fn sending(code_word: &str) -> Option<Command>
    ensures is { result ≡ sending_of code_word.now }
    ensures limits { IfSome result KeepsLimits }
{
    let code = number(code_word.as_bytes())?;
    if code > 63 {
        return None;
    }
    Some(Command::Mux {
        chain: Chain::C13,
        feac: Some(code as u8),
    })
}

// The making of a schedule, by its chain, its number of frames and its offsets.
fn making(chain_word: &str, frames: &str, bias_word: &str) -> Option<Command>
    ensures is { result ≡ making_of chain_word.now frames.now bias_word.now }
    ensures limits { IfSome result KeepsLimits }
{
    let chain = chain(chain_word)?;
    let frames = u64::from(number(frames.as_bytes())?);
    let bias = bias(bias_word)?;
    Some(Command::ClockMake {
        chain,
        frames,
        bias,
    })
}

// The drill of a chain, by what its test patterns begin with and its number of frames.
fn drilling(chain_word: &str, seed: &str, frames: &str) -> Option<Command>
    ensures is { result ≡ drilling_of chain_word.now seed.now frames.now }
    ensures limits { IfSome result KeepsLimits }
{
    let chain = chain(chain_word)?;
    let seed = u64::from(number(seed.as_bytes())?);
    let frames = u64::from(number(frames.as_bytes())?);
    Some(Command::Drill {
        chain,
        seed,
        frames,
    })
}

// The linking of two terminals of a chain, by what their test patterns begin with and the number of frames of each line.
fn linking(chain_word: &str, seed: &str, frames: &str) -> Option<Command>
    ensures is { result ≡ linking_of chain_word.now seed.now frames.now }
    ensures limits { IfSome result KeepsLimits }
{
    let chain = chain(chain_word)?;
    let seed = u64::from(number(seed.as_bytes())?);
    let frames = u64::from(number(frames.as_bytes())?);
    Some(Command::Duplex {
        chain,
        seed,
        frames,
    })
}

// The packing of a payload into superframes, by their form.
fn ds1_packing(form_word: &str) -> Option<Command>
    ensures { result ≡ ds1_packing_of form_word.now }
{
    let frame = form(form_word)?;
    Some(Command::Ds1Pack { frame })
}

// The unpacking of superframes, by their form.
fn ds1_unpacking(form_word: &str) -> Option<Command>
    ensures { result ≡ ds1_unpacking_of form_word.now }
{
    let frame = form(form_word)?;
    Some(Command::Ds1Unpack { frame })
}

// The command of two words.
fn of_two(first: &str, second: &str) -> Option<Command>
    ensures is { result ≡ by_two first.now second.now }
    ensures limits { IfSome result KeepsLimits }
{
    if first == "inspect" && second == "e1" {
        return Some(Command::InspectE1);
    }
    if first == "ds1pack" {
        return ds1_packing(second);
    }
    if first == "ds1unpack" {
        return ds1_unpacking(second);
    }
    conversion(first, chain(second)?)
}

// The command of three words.
fn of_three(first: &str, second: &str, third: &str) -> Option<Command>
    ensures is { result ≡ by_three first.now second.now third.now }
    ensures limits { IfSome result KeepsLimits }
{
    if first == "show" {
        return showing(second, third);
    }
    if first == "clock" && second == "check" {
        return checking(third);
    }
    if third == "bent" {
        return reading(first, chain(second)?, Bits::Bent);
    }
    None
}

// The command of four words.
fn of_four(first: &str, second: &str, third: &str, fourth: &str) -> Option<Command>
    ensures is { result ≡ by_four first.now second.now third.now fourth.now }
    ensures limits { IfSome result KeepsLimits }
{
    if first == "mux" && second == "c13" && third == "feac" {
        return sending(fourth);
    }
    if first == "drill" {
        return drilling(second, third, fourth);
    }
    if first == "duplex" {
        return linking(second, third, fourth);
    }
    None
}

// The command of five words.
fn of_five(first: &str, second: &str, third: &str, fourth: &str, fifth: &str) -> Option<Command>
    ensures is { result ≡ by_five first.now second.now third.now fourth.now fifth.now }
    ensures limits { IfSome result KeepsLimits }
{
    if first == "clock" && second == "make" {
        return making(third, fourth, fifth);
    }
    None
}

/// The command of the words, without the program's own name, if they are a row of the table: `mux CHAIN`, `demux CHAIN`,
/// `demux CHAIN bent`, `mux c13 feac CODE` with a number of at most 63, `muxslip CHAIN`, `clock check CHAIN`,
/// `clock make CHAIN FRAMES BIAS` with a number and `nominal`, `fast`, `slow` or `mixed`, `inspect CHAIN`,
/// `inspect CHAIN bent`, `inspect e1`, `show CHAIN NUMBER`, `e1pack`, `e1unpack`, `disturb CHAIN`, `drill CHAIN SEED FRAMES`
/// with two numbers, `ds1pack` or `ds1unpack` with `sf` or `esf`, `smooth CHAIN` with a chain of one multiplexer, or
/// `duplex CHAIN SEED FRAMES` with two numbers. CHAIN is the name of a chain, and a number is `0`, or a digit 1 to 9 and at most
/// eight digits.
pub fn command_for(words: &[String]) -> Option<Command>
    ensures is { result ≡ command_of (map string_bytes words.now) }
    ensures limits { IfSome result KeepsLimits }
{
    match words {
        [word] => framing(word.as_str()),
        [first, second] => of_two(first.as_str(), second.as_str()),
        [first, second, third] => of_three(first.as_str(), second.as_str(), third.as_str()),
        [first, second, third, fourth] => of_four(
            first.as_str(),
            second.as_str(),
            third.as_str(),
            fourth.as_str(),
        ),
        [first, second, third, fourth, fifth] => of_five(
            first.as_str(),
            second.as_str(),
            third.as_str(),
            fourth.as_str(),
            fifth.as_str(),
        ),
        _ => None,
    }
}
