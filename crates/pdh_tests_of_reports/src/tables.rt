//! The tables of reports, and the lines below them.

use crate::reports::{alone, no_remarks, quiet, report, text_of};
use pdh_report::NodeReport;
use pdh_report_text::{Code, EventPlace, Remarks};
use std::alloc::{AllocError, Global};
use std::test::Fail;

// The paths of the nodes below a top of the fourth order.
const PATHS: [&str; 20] = [
    "/1", "/1/1", "/1/2", "/1/3", "/1/4", "/2", "/2/1", "/2/2", "/2/3", "/2/4", "/3", "/3/1",
    "/3/2", "/3/3", "/3/4", "/4", "/4/1", "/4/2", "/4/3", "/4/4",
];

// A code of the far end alarm and control channel.
const CODE: Code = Code {
    code: 25,
    place: 761_599,
};

// A top, and nodes with a loss below it.
fn lossy(alloc: Global) -> Result<Vec<NodeReport<'static>>, AllocError> {
    let mut nodes = Vec::new(alloc);
    nodes.push(NodeReport {
        lost: 1,
        out_bits: 848,
        ..quiet("/", "E4", 1_000)
    })?;
    for path in PATHS.iter() {
        let level = if path.len() == 2 { "E3" } else { "E2" };
        nodes.push(NodeReport {
            lost: 1,
            out_bits: 1_671_168,
            es: 2,
            ses: 1,
            ..quiet(path, level, 900)
        })?;
    }
    Ok(nodes)
}

// How many lines of a text begin with a path.
fn rows(text: &str) -> usize {
    text.lines().filter(|line| line.starts_with('/')).count()
}

#[test]
fn twenty_nodes_are_listed(rt: HostRuntime) -> Result<(), Fail> {
    let alloc = rt.alloc();
    let some = report("e14", 139_264_000, None, lossy(alloc)?);
    let text = text_of(alloc, &some, &no_remarks())?;
    assert!(rt;
        text.as_str()
            .contains("  health     21 of 21 nodes with events\n"),
        "{text}"
    );
    assert_eq!(rt; rows(text.as_str()), 21, "{text}");
    let mut nodes = lossy(alloc)?;
    for path in PATHS[..4].iter() {
        nodes.push(NodeReport {
            lost: 3,
            out_bits: 1_671_167,
            es: 1,
            ..quiet(path, "E2", 900)
        })?;
    }
    let more = report("e14", 139_264_000, None, nodes);
    let text = text_of(alloc, &more, &no_remarks())?;
    assert_eq!(rt; rows(text.as_str()), 21, "{text}");
    let told =
        "\n4 more E2 with events, each at most: losses 3, out 11.9 ms, ES 1, SES 0 (--all lists them)\n";
    assert!(rt; text.as_str().contains(told), "{text}");
    let remarks = Remarks {
        all: true,
        ..no_remarks()
    };
    let text = text_of(alloc, &more, &remarks)?;
    assert_eq!(rt; rows(text.as_str()), 25, "{text}");
    Ok(())
}

#[test]
fn other_nodes_are_summed_up(rt: HostRuntime) -> Result<(), Fail> {
    let alloc = rt.alloc();
    let mut nodes = Vec::new(alloc);
    nodes.push(quiet("/", "E3", 1_500))?;
    nodes.push(quiet("/1", "E2", 123))?;
    nodes.push(quiet("/2", "E2", 1_124))?;
    for path in PATHS[5..7].iter() {
        nodes.push(NodeReport {
            aligned: 0,
            too_short: true,
            ..quiet(path, "E2", 0)
        })?;
    }
    nodes.push(NodeReport {
        bad: 2,
        ..quiet("/4", "E2", 123)
    })?;
    let report = report("e13", 34_368_000, None, nodes);
    let text = text_of(alloc, &report, &no_remarks())?;
    let told = "  health     1 of 6 nodes with events

node    level        frames  losses    bad       out   longest       AIS     alarm    ES   SES   UAS
/       E3            1,500       -      -         -         -         -         -     -     -     -
/4      E2              123       -      2         -         -         -         -     -     -     -
2 E2 too short to tell: fewer than four frames came
2 E2 without events, 123 to 1,124 frames each

UAS: none can be told in less than ten seconds
E2, E3, E4, DS2: their ES and SES are of losses and AIS alone; wrong alignment bits are in `bad`
";
    assert!(rt; text.as_str().ends_with(told), "{text}");
    Ok(())
}

#[test]
fn errors_of_the_top_stand_below(rt: HostRuntime) -> Result<(), Fail> {
    let alloc = rt.alloc();
    let top = NodeReport {
        parity: 12,
        path_parity: 1_234,
        febe: 20,
        crc: 3,
        ebit: 4,
        uas: Some(0),
        ..quiet("/", "DS3", 3_000)
    };
    let first = EventPlace {
        kind: "parity",
        node: "/",
        place: 208_205,
    };
    let last = EventPlace {
        kind: "alarm_off",
        node: "/4",
        place: 1_184_000,
    };
    let codes = [CODE, CODE, CODE];
    let remarks = Remarks {
        events: Some((first, last)),
        codes: &codes,
        more_codes: 1_009,
        ..no_remarks()
    };
    let report = report("m23", 44_736_000, None, alone(alloc, top)?);
    let text = text_of(alloc, &report, &remarks)?;
    let told = "
/: parity 12, path parity 1,234, far end block errors 20, CRC errors 3, E bits 4 in 3,000 frames
/: FEAC codes 25 at 0.017024 s, 25 at 0.017024 s, 25 at 0.017024 s and 1,009 more
first: parity of / at bit 208,205, 0.004654 s; last: alarm_off of /4 at 0.026466 s
";
    assert!(rt; text.as_str().ends_with(told), "{text}");
    Ok(())
}

#[test]
fn nothing_stands_below_where_nothing_is_to_be_said(rt: HostRuntime) -> Result<(), Fail> {
    let alloc = rt.alloc();
    let top = NodeReport {
        uas: Some(0),
        ..quiet("/", "DS3", 3_000)
    };
    let report = report("m23", 44_736_000, None, alone(alloc, top)?);
    let text = text_of(alloc, &report, &no_remarks())?;
    assert!(rt; text.as_str().ends_with("     -     -     -\n"), "{text}");
    Ok(())
}
