//! The pictures of reports.

ghost use Rattle.std.specs.Prelude.{◌<◌, ◌^◌, length};

use crate::reports::{alone, quiet, report};
use pdh_picture::{CELLS, Lanes, draw};
use pdh_report::{NodeReport, Report};
use pdh_report_text::Code;
use std::alloc::{AllocError, Global};
use std::test::Fail;

// The picture of a report of one node that was aligned behind so many bits, with these codes, and this many errored blocks in the
// third cell.
fn picture(
    alloc: Global,
    report: &Report<'_>,
    early_bits: u64,
    codes: &[Code],
    errored: u64,
) -> Result<String, AllocError>
    requires rate { 0 < report.now.rate }
    requires rows { length report.now.nodes.items < 2 ^ 16 }
{
    let none = [false; CELLS];
    let quiet = [0u64; CELLS];
    let mut near = [0u64; CELLS];
    near[2] = errored;
    let lanes = [Lanes {
        early_bits,
        out: &none,
        ais: &none,
        alarm: &none,
        near: &near,
        far: &quiet,
        codes,
    }];
    draw(alloc, report, &lanes)
}

#[test]
fn names_of_files_are_escaped(rt: HostRuntime) -> Result<(), Fail> {
    let alloc = rt.alloc();
    let long = "0123456789012345678901234567890123456789012345678901234567890";
    let names = [
        (
            "a&b<c>.bits",
            "<title>a&amp;b&lt;c&gt;.bits: e12, 8448 kbit/s</title>",
        ),
        ("\u{e9}\n.bits", "<title>???.bits: e12, 8448 kbit/s</title>"),
        (
            long,
            "<title>...456789012345678901234567890123456789012345678901234567890: e12, 8448 kbit/s</title>",
        ),
        (
            &long[1..],
            "<title>123456789012345678901234567890123456789012345678901234567890: e12, 8448 kbit/s</title>",
        ),
    ];
    for (file, told) in names.iter() {
        let mut report = report(
            "e12",
            8_448_000,
            None,
            alone(alloc, quiet("/", "E2", 1_000))?,
        );
        report.file = *file;
        let svg = picture(alloc, &report, 0, &[], 0)?;
        assert!(rt; svg.as_str().contains(*told), "{file}");
    }
    Ok(())
}

#[test]
fn what_happened_stands_right_of_a_row(rt: HostRuntime) -> Result<(), Fail> {
    let alloc = rt.alloc();
    let fine = quiet("/", "DS3", 1_000);
    let lost = NodeReport {
        lost: 12_345,
        errored_blocks: 3_456_789,
        bad: 9_999,
        ..quiet("/", "DS3", 1_000)
    };
    let bad = NodeReport {
        bad: 10_000_000,
        ..quiet("/", "DS3", 1_000)
    };
    let never = NodeReport {
        aligned: 0,
        out_bits: 44_736_000,
        ..quiet("/", "DS3", 0)
    };
    let told = [
        (fine, "font-size=\"11\"></text>\n</g>"),
        (
            lost,
            "y=\"145\" font-size=\"11\">12k lost, 3456k err</text>\n<text x=\"958\" y=\"159\" font-size=\"11\">9999 bad</text>\n</g>",
        ),
        (bad, "y=\"145\" font-size=\"11\">10M bad</text>\n</g>"),
        (
            never,
            "y=\"145\" font-size=\"11\">never aligned</text>\n</g>",
        ),
    ];
    for (node, text) in told {
        let report = report("m23", 44_736_000, None, alone(alloc, node)?);
        let svg = picture(alloc, &report, 0, &[], 0)?;
        assert!(rt; svg.as_str().contains(text), "{text}");
    }
    Ok(())
}

#[test]
fn codes_stand_five_cells_apart(rt: HostRuntime) -> Result<(), Fail> {
    let alloc = rt.alloc();
    let mut report = report("c13", 44_736_000, None, alone(alloc, quiet("/", "DS3", 9))?);
    report.bits = 43_000;
    let mut codes = Vec::new(alloc);
    for cell in [0u64, 4, 5, 9, 10, 11] {
        codes.push(Code {
            code: 25,
            place: 100 * cell + 50,
        })?;
    }
    let svg = picture(alloc, &report, 0, &codes, 0)?;
    assert_eq!(rt; svg.as_str().matches("FEAC code 25").count(), 3);
    for x in ["M93 ", "M103 ", "M113 "] {
        assert!(rt; svg.as_str().contains(x), "{x}");
    }
    Ok(())
}

#[test]
fn ticks_stand_up_by_their_number(rt: HostRuntime) -> Result<(), Fail> {
    let alloc = rt.alloc();
    let report = report("m23", 44_736_000, None, alone(alloc, quiet("/", "DS3", 9))?);
    let ticks = [
        (1u64, "y=\"125\" width=\"2\" height=\"5\""),
        (2, "y=\"123\" width=\"2\" height=\"7\""),
        (9, "y=\"123\" width=\"2\" height=\"7\""),
        (10, "y=\"121\" width=\"2\" height=\"9\""),
        (99, "y=\"121\" width=\"2\" height=\"9\""),
        (100, "y=\"120\" width=\"2\" height=\"10\""),
    ];
    for (errored, told) in ticks.iter() {
        let svg = picture(alloc, &report, 0, &[], *errored)?;
        assert!(rt; svg.as_str().contains(*told), "{errored}");
    }
    Ok(())
}

#[test]
fn scales_have_round_steps(rt: HostRuntime) -> Result<(), Fail> {
    let alloc = rt.alloc();
    let rate = 8_448_000u64;
    let scales = [
        (0, 845, 11, ">0 us<", ">100 us<"),
        (0, 84_480, 11, ">0 ms<", ">10 ms<"),
        (0, 10 * rate, 11, ">0 s<", ">10 s<"),
        (0, 45 * rate, 10, ">5 s<", ">45 s<"),
        (0, 300 * rate, 11, ">0:00:30<", ">0:05:00<"),
        (0, 7_200 * rate, 7, ">0:20:00<", ">2:00:00<"),
        (0, 259_200 * rate, 7, ">12:00:00<", ">72:00:00<"),
        (0, 2_592_000 * rate, 11, ">72:00:00<", ">720:00:00<"),
        (3_601 * rate + 1, 10 * rate, 10, ">1:00:02<", ">1:00:11<"),
    ];
    for (from, bits, lines, first, last) in scales {
        let nodes = alone(alloc, quiet("/", "E2", 1_000))?;
        let mut report = report("e12", rate, None, nodes);
        report.from = from;
        report.bits = bits;
        let svg = picture(alloc, &report, 0, &[], 0)?;
        let drawn = svg.as_str().matches("stroke=\"#dddddd\"").count();
        assert_eq!(rt; drawn, lines, "{last}");
        assert!(rt; svg.as_str().contains(first), "{first}");
        assert!(rt; svg.as_str().contains(last), "{last}");
    }
    Ok(())
}

#[test]
fn what_came_before_the_first_alignment_is_white(rt: HostRuntime) -> Result<(), Fail> {
    let alloc = rt.alloc();
    let nodes = alone(alloc, quiet("/", "E2", 1_000))?;
    let mut report = report("e12", 8_448_000, None, nodes);
    report.bits = 43_000;
    let widths = [(0u64, 0u64), (112, 0), (113, 4), (208, 4), (209, 6)];
    for (early_bits, width) in widths.iter() {
        let svg = picture(alloc, &report, *early_bits, &[], 0)?;
        let svg = svg.as_str();
        let told = format!(in alloc;
            "<rect x=\"92\" y=\"123\" width=\"{width}\" height=\"11\" fill=\"#ffffff\"><title>/ not yet aligned</title>"
        )?;
        assert_eq!(rt;
            svg.contains("/ not yet aligned"),
            *width > 0,
            "{early_bits}"
        );
        assert_eq!(rt; svg.contains(told.as_str()), *width > 0, "{early_bits}");
    }
    Ok(())
}
