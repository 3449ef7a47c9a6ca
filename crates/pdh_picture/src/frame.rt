//! What stands around the rows of a picture.

use crate::heading::push_title;
use pdh_report::Report;
use std::alloc::AllocError;

// How wide a picture is, in pixels.
const WIDTH: u64 = 1060;

// What each colour and mark means, from left to right.
const LEGEND: [&str; 8] = [
    "<rect x=\"10.5\" y=\"68.5\" width=\"18\" height=\"11\" fill=\"#c9dff0\" stroke=\"#b0b0b0\"/><text x=\"34\" y=\"78\" font-size=\"10\">aligned</text>\n",
    "<rect x=\"84.5\" y=\"68.5\" width=\"18\" height=\"11\" fill=\"#ffffff\" stroke=\"#b0b0b0\"/><text x=\"108\" y=\"78\" font-size=\"10\">not yet aligned</text>\n",
    "<rect x=\"200.5\" y=\"68.5\" width=\"18\" height=\"11\" fill=\"#202020\" stroke=\"#b0b0b0\"/><text x=\"224\" y=\"78\" font-size=\"10\">out of alignment</text>\n",
    "<rect x=\"318.5\" y=\"68.5\" width=\"18\" height=\"11\" fill=\"#202020\" stroke=\"#b0b0b0\"/><rect x=\"318.5\" y=\"68.5\" width=\"18\" height=\"11\" fill=\"url(#ais)\"/><text x=\"342\" y=\"78\" font-size=\"10\">AIS</text>\n",
    "<path d=\"M375 80v-6h2v6zM380 80v-8h2v8zM385 80v-10h2v10zM390 80v-12h2v12z\"/><text x=\"398\" y=\"78\" font-size=\"10\">errored blocks: 1, 2 to 9, 10 to 99, 100 or more</text>\n",
    "<rect x=\"654\" y=\"73\" width=\"18\" height=\"3\" fill=\"#0c6db5\"/><text x=\"678\" y=\"78\" font-size=\"10\">remote alarm</text>\n",
    "<path d=\"M759 71h2v6h-2zM764 71h2v6h-2zM769 71h2v6h-2z\" fill=\"#8a1253\"/><text x=\"780\" y=\"78\" font-size=\"10\">far end error</text>\n",
    "<path d=\"M865 69l4 5-4 5-4-5z\" fill=\"#ffffff\" stroke=\"#8a1253\" stroke-width=\"1.5\"/><text x=\"880\" y=\"78\" font-size=\"10\">FEAC code</text>\n",
];

// The stripes of AIS.
const STRIPES: &str =
    "<defs>\n<pattern id=\"ais\" width=\"6\" height=\"6\" patternUnits=\"userSpaceOnUse\" patternTransform=\"rotate(45)\"><rect width=\"6\" height=\"6\" fill=\"#ffc20a\"/><rect width=\"3\" height=\"6\" fill=\"#000000\"/></pattern>\n</defs>\n";

/// Appends what a picture of a height begins with, up to its heading.
pub fn push_start(out: &mut String, report: &Report<'_>, height: u64) -> Result<(), AllocError> {
    write!(
        out,
        "<svg xmlns=\"http://www.w3.org/2000/svg\" width=\"{WIDTH}\" height=\"{height}\" viewBox=\"0 0 {WIDTH} {height}\" font-family=\"DejaVu Sans, Verdana, Arial, sans-serif\" font-size=\"11\">\n<title>"
    )?;
    push_title(out, report)?;
    out.push_str("</title>\n")?;
    out.push_str(STRIPES)?;
    write!(
        out,
        "<rect width=\"{WIDTH}\" height=\"{height}\" fill=\"#ffffff\"/>\n"
    )
}

/// Appends the legend.
pub fn push_legend(out: &mut String) -> Result<(), AllocError> {
    for item in LEGEND.iter() {
        out.push_str(item)?;
    }
    Ok(())
}
