//! `duplex`: two terminals, each of which sends the state of its receiver back in its own line.

ghost use Rattle.std.specs.Prelude.{◌≡◌, ℕ, ◌+◌, ◌≤◌, ◌++◌, length, map, IfOk, OnOk, IfErr, OnErr, Ok, Err};
ghost use Rattle.pdh_shape.specs.OwnNumbers.{most_drilled};
ghost use Rattle.pdh_edge.specs.Files.{Looks};
ghost use Rattle.pdh_watch.specs.Monitors.{SawEach};
ghost use Rattle.pdh_script.specs.Scripts.{FitIn};
ghost use Rattle.pdh_answers.specs.Names.{name_of};
ghost use Rattle.pdh_duplex.specs.Session.{IsSetting, setting_with, session_of};
ghost use Rattle.pdh_runner.specs.Reading.{HasLength};
ghost use Rattle.pdh_runner.specs.Performing.{IsCounted, Performs, IsWatched};
ghost use Rattle.pdh_runner.specs.Refusing.{Refuses};
ghost use Rattle.pdh_linking.specs.Duplex.{pair_text, session_text, duplex_says, west_events, duplexing};
ghost use Rattle.pdh_linking.specs.DuplexSteps.{HasSizes, ScriptIs, IsScriptStop, AreScripts};

use pdh_answers::{Done, File, Stop};
use pdh_chain::{Chain, frame_bytes};
use pdh_duplex::Session;
use pdh_edge::Shelf;
use pdh_runner::files::{read, size};
use pdh_script::{MOST_SCRIPT_BYTES, Script};
use pdh_shape::MOST_DRILLED;
use pdh_text::Text;
use pdh_watch::{Members, Monitor, Quiet};
use std::alloc::{AllocError, Global};
use std::mem;

// The sizes of the scripts, in bytes.
#[derive(Clone, Copy)]
struct Sizes {
    west: u64,
    east: u64,
}

// What disturbs the line from the west terminal to the east terminal, and the line from east to west.
#[derive(Drop)]
struct Scripts {
    to_east: Script,
    to_west: Script,
}

// Appends a count of each end behind its name, west's first.
#[tactic(auto, using(pdh_text::proofs::Lengths::digits))]
fn add_pair(text: &mut Text, name: &str, west: u64, east: u64)
    requires name { length name.now ≤ 20 }
    requires room { length text.old ≤ 250 }
    ensures added { text.new ≡ text.old ++ pair_text name.now west east }
    ensures short { length text.new ≤ length text.old + length name.now + 41 }
{
    text.text(name);
    text.number(west);
    text.text(" ");
    text.number(east);
}

// Appends what both ends counted.
#[tactic(auto, using(pdh_text::proofs::Lengths::digits))]
fn add_counts(text: &mut Text, session: Session)
    requires { length text.old ≤ 70 }
    ensures added { text.new ≡ text.old ++ session_text session }
    ensures short { length text.new ≤ 300 }
{
    text.text("west ");
    text.number(session.west_frames);
    text.text(" east ");
    text.number(session.east_frames);
    add_pair(text, " alarms ", session.west_alarms, session.east_alarms);
    add_pair(text, " febe ", session.west_febe, session.east_febe);
    add_pair(text, " errors ", session.west_errors, session.east_errors);
}

// The line of a session.
#[tactic(auto, using(pdh_text::proofs::Lengths::digits))]
fn says(chain: Chain, seed: u64, frames: u64, session: Session) -> Done
    ensures { result ≡ duplex_says chain seed frames session }
{
    let mut text = Text::new();
    text.text("duplex ");
    text.text(chain.name());
    text.text(" seed ");
    text.number(seed);
    text.text(" frames ");
    text.number(frames);
    text.text(": ");
    add_counts(&mut text, session);
    text.text("\n");
    Done::Watched(text)
}

// The sizes of both scripts, if the lines have no more frames than they may have.
fn read_sizes<S: Shelf>(frames: u64, shelf: &mut S) -> Result<Sizes, Stop>
    ensures looks { Looks (S.state shelf.old) (S.state shelf.new) }
    ensures ok { IfOk result (λ sizes. HasSizes frames sizes (S.state shelf.new)) }
    ensures err { IfErr result (λ stop. (chain : Chain) (seed : ℕ) → Refuses (duplexing chain seed frames) (S.state shelf.old) (S.state shelf.new) stop) }
    ensures counted { IsCounted (S.state shelf.old) (S.state shelf.new) result }
{
    let west = size(shelf, File::West)?;
    let east = size(shelf, File::East)?;
    if frames > MOST_DRILLED {
        return Err(Stop::ManyFrames(frames));
    }
    Ok(Sizes { west, east })
}

// The script of a file of so many bytes, for a line of so many bits.
fn read_script<S: Shelf>(
    alloc: Global,
    file: File,
    bytes: u64,
    bits: u64,
    shelf: &mut S,
) -> Result<Script, Stop>
    requires { HasLength (name_of file) bytes (S.state shelf.old) }
    ensures looks { Looks (S.state shelf.old) (S.state shelf.new) }
    ensures rows { IfOk result (λ script. ScriptIs file bits (S.state shelf.old) (Ok script)) }
    ensures fit { IfOk result (FitIn bits) }
    ensures err { IfErr result (IsScriptStop file bits bytes (S.state shelf.old) (S.state shelf.new)) }
    ensures counted { IsCounted (S.state shelf.old) (S.state shelf.new) result }
{
    if bytes > MOST_SCRIPT_BYTES as u64 {
        return Err(Stop::LongScript);
    }
    let text = read(alloc, shelf, file, bytes)?;
    Ok(Script::read(alloc, &text, bits)?)
}

// Both scripts, that of the west terminal first, for lines of so many frames.
fn read_scripts<S: Shelf>(
    alloc: Global,
    chain: Chain,
    frames: u64,
    shelf: &mut S,
) -> Result<Scripts, Stop>
    ensures looks { Looks (S.state shelf.old) (S.state shelf.new) }
    ensures ok { IfOk result (λ scripts. AreScripts chain frames scripts (S.state shelf.new)) }
    ensures err { IfErr result (λ stop. (seed : ℕ) → Refuses (duplexing chain seed frames) (S.state shelf.old) (S.state shelf.new) stop) }
    ensures counted { IsCounted (S.state shelf.old) (S.state shelf.new) result }
{
    let sizes = read_sizes(frames, shelf)?;
    let bits = 8 * frames * u64::from(frame_bytes(chain));
    let to_east = read_script(alloc, File::West, sizes.west, bits, shelf)?;
    let to_west = read_script(alloc, File::East, sizes.east, bits, shelf)?;
    Ok(Scripts { to_east, to_west })
}

// The session of both scripts, in which the monitors see the events of the west terminal; or memory was wanting, and they saw
// none.
fn watched_session<M: Monitor>(
    alloc: Global,
    chain: Chain,
    seed: u64,
    frames: u64,
    scripts: &Scripts,
    monitors: &mut Vec<M>,
) -> Result<Session, AllocError>
    requires { IsSetting (setting_with chain seed frames scripts.now.to_east scripts.now.to_west) }
    ensures session { IfOk result (λ session. session ≡ session_of (setting_with chain seed frames scripts.now.to_east scripts.now.to_west)) }
    ensures seen { IfOk result (λ session. SawEach (map M.state monitors.old.items) (west_events (setting_with chain seed frames scripts.now.to_east scripts.now.to_west)) (map M.state monitors.new.items)) }
    ensures unseen { OnErr result (map M.state monitors.new.items ≡ map M.state monitors.old.items) }
{
    let members = Members::new(mem::replace(monitors, Vec::new(alloc)));
    let done = pdh_duplex::duplex(
        alloc,
        chain,
        seed,
        frames,
        &scripts.to_east,
        &scripts.to_west,
        members,
        Quiet,
    );
    *monitors = done.west.into_list();
    done.session
}

/// Reads both scripts, `west.txt` of the line from the west terminal and `east.txt` of that from the east terminal, shows the
/// events that the west terminal sees to the monitors, and answers what both terminals count. Nothing is written.
pub fn duplex<S: Shelf>(
    alloc: Global,
    chain: Chain,
    seed: u64,
    frames: u64,
    shelf: &mut S,
    monitors: &mut Vec<Box<dyn Monitor>>,
) -> Result<Done, Stop>
    requires { seed ≤ 999999999 }
    ensures performs { Performs (duplexing chain seed frames) (S.state shelf.old) (S.state shelf.new) result }
    ensures watches { IsWatched (duplexing chain seed frames) (S.state shelf.old) (S.state shelf.new) result (map ⟦<Box<dyn Monitor> as Monitor>⟧.state monitors.old.items) (map ⟦<Box<dyn Monitor> as Monitor>⟧.state monitors.new.items) }
{
    let scripts = read_scripts(alloc, chain, frames, shelf)?;
    let session = watched_session(alloc, chain, seed, frames, &scripts, monitors)?;
    Ok(says(chain, seed, frames, session))
}
