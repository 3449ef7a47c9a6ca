//! What is told of a recording: the text, the table as JSON, and the picture.

ghost use Rattle.std.specs.Prelude.{◌≡◌, ◌<◌, length, IfOk};
ghost use Rattle.pdh_report.specs.Troubles.{is_healthy};
ghost use Rattle.pdh_reporting.specs.Reports.{AreTold, IsVerdict};

use crate::chosen::{Beside, Chosen};
use crate::files::{Handles, write_text};
use crate::nodes::{NodeName, names_of};
use crate::picture_rows::Row;
use crate::reports::{found_of, reading_of, reports_of};
use crate::stop::Stop;
use pdh_following::{LineFound, kind_name, node_name};
use pdh_health::NodeHealth;
use pdh_looking::Nearest;
use pdh_named_lines::top_of;
use pdh_picture::draw;
use pdh_placed::Placed;
use pdh_report::{Report, is_healthy};
use pdh_report_text::{Code, EventPlace, Hint, NearestTop, Outcome, Remarks, outcome_text};
use pdh_report_words::{Outputs, Request, VERSION};
use std::alloc::{AllocError, Global};
use std::io::Write;

/// What is told of a recording, and whether it is healthy.
#[derive(Drop)]
pub(crate) struct Told {
    /// The text.
    pub(crate) text: String,
    /// Nothing is wrong with the line.
    pub(crate) healthy: bool,
}

// What a search found beside a chain that was given.
fn hint_of(chosen: &Chosen) -> Option<Hint<'static>> {
    let part_bits = chosen.part_bits;
    match chosen.beside {
        Beside::Unasked => None,
        Beside::Nothing => Some(Hint::Nothing { part_bits }),
        Beside::Chain(word, order) => Some(Hint::Chain {
            part_bits,
            chain: word.name(),
            reading: reading_of(order),
        }),
    }
}

// Where an event stands in the file.
fn place_of<'e>(event: &Placed, node: &'e str, from: u64) -> EventPlace<'e> {
    EventPlace {
        kind: kind_name(event.event.kind),
        node,
        place: from.saturating_add(event.place),
    }
}

// The first codes of the top, with their places in the file.
fn codes_of(alloc: Global, line: &LineFound, from: u64) -> Result<Vec<Code>, AllocError> {
    let mut codes = Vec::new(alloc);
    let Some(top) = line.health.nodes.first() else {
        return Ok(codes);
    };
    for code in top.codes.codes() {
        codes.push(Code {
            code: code.code,
            place: from.saturating_add(code.place),
        })?;
    }
    Ok(codes)
}

// The names of the nodes of the first event that is told and of the last.
fn end_names(alloc: Global, line: &LineFound) -> Result<Option<(String, String)>, AllocError> {
    let (Some(first), Some(last)) = (&line.health.first, &line.health.last) else {
        return Ok(None);
    };
    let first = node_name(alloc, first.event.path)?;
    let last = node_name(alloc, last.event.path)?;
    Ok(Some((first, last)))
}

// The first event that is told, and the last.
fn ends_of<'e>(
    line: &LineFound,
    names: &'e Option<(String, String)>,
    from: u64,
) -> Option<(EventPlace<'e>, EventPlace<'e>)> {
    let (first_node, last_node) = names.as_ref()?;
    let first = line.health.first.as_ref()?;
    let last = line.health.last.as_ref()?;
    Some((
        place_of(first, first_node.as_str(), from),
        place_of(last, last_node.as_str(), from),
    ))
}

// How many codes of the top came behind the first ones.
fn more_codes(line: &LineFound, first: &[Code]) -> u64 {
    match line.health.nodes.first() {
        Some(top) => top.counts.feac.saturating_sub(first.len() as u64),
        None => 0,
    }
}

// The text of a report.
fn text_of(
    alloc: Global,
    report: &Report<'_>,
    request: &Request<'_>,
    chosen: &Chosen,
    line: &LineFound,
) -> Result<String, AllocError>
    requires { 0 < report.now.rate }
{
    let codes = codes_of(alloc, line, request.from)?;
    let names = end_names(alloc, line)?;
    let remarks = Remarks {
        alike: chosen.found.as_ref().is_some_and(|found| found.alike),
        hint: hint_of(chosen),
        events: ends_of(line, &names, request.from),
        codes: &codes,
        more_codes: more_codes(line, &codes),
        all: request.lists_all,
    };
    let report = Outcome::Read {
        report,
        remarks: &remarks,
    };
    outcome_text(alloc, &report)
}

// The rows of the nodes in the picture.
fn rows_of(alloc: Global, nodes: &[NodeHealth], from: u64) -> Result<Vec<Row>, AllocError> {
    let mut rows = Vec::with_capacity(alloc, nodes.len())?;
    for node in nodes {
        rows.push(Row::of(alloc, node, from)?)?;
    }
    Ok(rows)
}

// How many nodes a picture has room for.
const MOST_NODES: usize = 65_535;

// The picture of a report.
fn picture_of(alloc: Global, report: &Report<'_>, line: &LineFound) -> Result<String, AllocError>
    requires { 0 < report.now.rate }
{
    if report.nodes.len() > MOST_NODES {
        return Err(AllocError);
    }
    let rows = rows_of(alloc, &line.health.nodes, report.from)?;
    let mut lanes = Vec::with_capacity(alloc, rows.len())?;
    for row in &rows {
        lanes.push(row.lanes())?;
    }
    draw(alloc, report, &lanes)
}

// Writes the table and the picture, where they are wanted.
fn write_outputs<'a, F: Write + Drop>(
    alloc: Global,
    handles: &mut Handles<F>,
    names: &Outputs<'a>,
    report: &Report<'_>,
    line: &LineFound,
) -> Result<(), Stop<'a>>
    requires { 0 < report.now.rate }
{
    if let Some(file) = &mut handles.json {
        let Ok(text) = report.to_json(alloc) else {
            return Err(Stop::OutOfMemory);
        };
        write_text(file, text.as_str(), names.json)?;
    }
    if let Some(file) = &mut handles.picture {
        let picture = picture_of(alloc, report, line)?;
        write_text(file, picture.as_str(), names.picture)?;
    }
    Ok(())
}

// The report of a line, with the names of its nodes.
fn report_of<'r>(
    alloc: Global,
    request: &Request<'r>,
    chosen: &Chosen,
    names: &'r [NodeName],
    line: &LineFound,
) -> Result<Report<'r>, AllocError>
    requires { length names.now ≡ length line.now.health.nodes.items }
    ensures rate { IfOk result (λ report. 0 < report.rate) }
    ensures nodes { IfOk result (λ report. AreTold line.now.health.nodes.items report.nodes.items) }
    ensures healthy { IfOk result (λ report. report.healthy ≡ is_healthy report.nodes.items) }
{
    let nodes = reports_of(alloc, names, &line.health.nodes)?;
    let mut found = None;
    if let Some(line) = &chosen.found {
        found = Some(found_of(alloc, line, chosen.part_bits)?);
    }
    Ok(Report {
        pdhreport: VERSION,
        file: request.file,
        from: request.from,
        bits: line.bits,
        rate: top_of(chosen.word).rate,
        chain: chosen.word.name(),
        lsb_first: chosen.order.lsb_first,
        inverted: chosen.order.inverted,
        found,
        healthy: is_healthy(&nodes),
        events: line.health.events,
        nodes,
    })
}

/// Tells what was found of a line: writes the table and the picture, where they are wanted, and answers the text.
pub(crate) fn tell<'a, F: Write + Drop>(
    alloc: Global,
    request: &Request<'a>,
    chosen: &Chosen,
    line: &LineFound,
    handles: &mut Handles<F>,
) -> Result<Told, Stop<'a>>
    ensures { IfOk result (λ told. IsVerdict line.now.health.nodes.items told.healthy) }
{
    let names = names_of(alloc, chosen.word, &line.health.nodes)?;
    let report = report_of(alloc, &*request, chosen, &names, line)?;
    let text = text_of(alloc, &report, request, chosen, line)?;
    write_outputs(alloc, handles, &request.outputs, &report, line)?;
    Ok(Told {
        text,
        healthy: report.healthy,
    })
}

/// What is told where nothing was found.
pub(crate) fn nothing_text(
    alloc: Global,
    part_bits: u64,
    nearest: &[Nearest],
) -> Result<String, AllocError> {
    let mut tops = Vec::with_capacity(alloc, nearest.len())?;
    for top in nearest {
        tops.push(NearestTop {
            level: top.level.name(),
            reading: reading_of(top.order),
            judged: top.judged.frames,
            right: top.judged.right,
        })?;
    }
    let outcome = Outcome::Nothing {
        part_bits,
        nearest: &tops,
    };
    outcome_text(alloc, &outcome)
}

/// What is told of a recording that consists of one byte, 0 or 255.
pub(crate) fn constant_text(alloc: Global, byte: u8) -> Result<String, AllocError> {
    if byte == 0 {
        return outcome_text(alloc, &Outcome::AllZeros);
    }
    outcome_text(alloc, &Outcome::AllOnes)
}
