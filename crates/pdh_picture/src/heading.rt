//! What stands above the rows of a picture.

ghost use Rattle.std.specs.Prelude.{◌<◌};

use crate::names::push_name;
use pdh_report::Report;
use pdh_report_text::{clock_time, grouped, reading_words, verdict};
use std::alloc::{AllocError, Global};

/// Appends the recording's name, its chain and its rate.
pub fn push_title(out: &mut String, report: &Report<'_>) -> Result<(), AllocError> {
    push_name(out, report.file)?;
    let chain = report.chain;
    let kilobits = report.rate / 1000;
    write!(out, ": {chain}, {kilobits} kbit/s")
}

/// Appends the heading: the title, then how long the recording is and how it is read, then how healthy it is.
pub fn push_heading(alloc: Global, out: &mut String, report: &Report<'_>) -> Result<(), AllocError>
    requires { 0 < report.now.rate }
{
    out.push_str("<text x=\"10\" y=\"22\" font-size=\"15\" font-weight=\"bold\">")?;
    push_title(out, report)?;
    let bits = grouped(alloc, report.bits)?;
    let time = clock_time(alloc, report.bits, report.rate)?;
    let words = reading_words(report.reading());
    write!(
        out,
        "</text>\n<text x=\"10\" y=\"40\" fill=\"#555555\">{bits} bits, {time} s; read {words}</text>\n"
    )?;
    let verdict = verdict(alloc, &report.nodes)?;
    write!(out, "<text x=\"10\" y=\"57\">{verdict}</text>\n")
}
