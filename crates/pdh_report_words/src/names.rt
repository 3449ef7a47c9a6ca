//! Files that the words name, and whether two of them are one.

ghost use Rattle.std.specs.Prelude.{◌≡◌, ◌≢◌, true, false, None};
ghost use Rattle.pdh_report_words.specs.Files.{word_of, name_bytes, part_name, AreApart, IsApartFrom, OutputsApart, FilesApart};

use crate::request::{Outputs, Request};

/// A file that the words name.
#[derive(Clone, Copy, Debug, PartialEq, Eq)]
pub enum Named {
    /// The file of every event.
    Events,
    /// The file of the table.
    Json,
    /// The file of the picture.
    Picture,
    /// The recording.
    Recording,
}

impl Named {
    /// By which word it is named.
    pub fn word(self) -> &'static str
        ensures { result.now ≡ word_of self }
    {
        match self {
            Named::Events => "--events",
            Named::Json => "--json",
            Named::Picture => "--picture",
            Named::Recording => "FILE",
        }
    }
}

// What is behind the name of an output while it is written.
const ENDING: &str = ".part";

// Whether an output is written beside its name under this other one.
fn is_part_of(part: &str, output: &str) -> bool
    ensures yes { result ≡ true → part.now ≡ part_name output.now }
    ensures no { result ≡ false → part.now ≢ part_name output.now }
{
    match part.strip_suffix(ENDING) {
        Some(front) => front == output,
        None => false,
    }
}

// Whether two outputs have one name, or one has the name under which the other is written.
fn clash(one: Option<&str>, other: Option<&str>) -> bool
    ensures { result ≡ false → AreApart (name_bytes one.entry) (name_bytes other.entry) }
{
    match (one, other) {
        (Some(one), Some(other)) => {
            one == other || is_part_of(one, other) || is_part_of(other, one)
        }
        _ => false,
    }
}

// Whether an output has the name of the recording, or is written under it.
fn is_recording(output: Option<&str>, file: &str) -> bool
    ensures { result ≡ false → IsApartFrom file.now (name_bytes output.entry) }
{
    match output {
        Some(output) if file != "-" => output == file || is_part_of(file, output),
        _ => false,
    }
}

// Two outputs that have one name.
fn common_output(outputs: &Outputs<'_>) -> Option<(Named, Named)>
    ensures { result ≡ None → OutputsApart outputs.now }
{
    if clash(outputs.events, outputs.json) {
        return Some((Named::Events, Named::Json));
    }
    if clash(outputs.events, outputs.picture) {
        return Some((Named::Events, Named::Picture));
    }
    if clash(outputs.json, outputs.picture) {
        return Some((Named::Json, Named::Picture));
    }
    None
}

/// Two files that have one name, an output and another output or else the recording, or an output and the name under which
/// another one is written; nothing where all differ.
pub(crate) fn common_name(request: &Request<'_>) -> Option<(Named, Named)>
    ensures { result ≡ None → FilesApart request.now }
{
    let outputs = &request.outputs;
    if let Some(both) = common_output(outputs) {
        return Some(both);
    }
    if is_recording(outputs.events, request.file) {
        return Some((Named::Events, Named::Recording));
    }
    if is_recording(outputs.json, request.file) {
        return Some((Named::Json, Named::Recording));
    }
    if is_recording(outputs.picture, request.file) {
        return Some((Named::Picture, Named::Recording));
    }
    None
}
