//! The heads of reports.

use crate::reports::{alone, found, no_remarks, quiet, report, text_of};
use pdh_report::{NodeReport, Reading};
use pdh_report_text::{Hint, Remarks};
use std::alloc::{AllocError, Global};
use std::test::Fail;

// An order of bits that no report here was read in.
const OTHER: Reading = Reading {
    lsb_first: true,
    inverted: true,
};

#[test]
fn doubts_stand_in_the_head(rt: HostRuntime) -> Result<(), Fail> {
    let alloc = rt.alloc();
    let mut by = found(alloc, 262_143, &["E4"])?;
    by.also.push(OTHER)?;
    let nodes = alone(alloc, quiet("/", "E4", 89))?;
    let report = report("e34", 139_264_000, Some(by), nodes);
    let remarks = Remarks {
        alike: true,
        ..no_remarks()
    };
    let told = "x.bits: 139,264,000 bits, 1.000000 s at 139264 kbit/s
  chain      e34: 4 x 34368 kbit/s in 139264 (G.751)
  found      E4 1 of 1, in the first 262,143 bits
  read as    most significant bit first, not inverted
  fits too   least significant bit first, inverted
  but        every frame is alike; an idle pattern could look the same
  but        lower levels could hide: fewer than 262,144 bits
  health     nothing happened

";
    let text = text_of(alloc, &report, &remarks)?;
    assert!(rt; text.as_str().starts_with(told), "{text}");
    Ok(())
}

#[test]
fn the_deepest_chain_hides_nothing(rt: HostRuntime) -> Result<(), Fail> {
    let alloc = rt.alloc();
    for (chain, levels, may_hide) in [("e12", 1, false), ("c13", 1, true), ("c13", 2, false)] {
        let names = ["DS3", "DS2"];
        let by = found(alloc, 262_143, &names[..levels])?;
        let nodes = alone(alloc, quiet("/", "DS3", 89))?;
        let report = report(chain, 44_736_000, Some(by), nodes);
        let text = text_of(alloc, &report, &no_remarks())?;
        assert_eq!(rt; text.as_str().contains("could hide"), may_hide, "{chain}");
    }
    Ok(())
}

// The text where a chain was given, with a hint.
fn text_with(alloc: Global, hint: Option<Hint<'_>>) -> Result<String, AllocError> {
    let nodes = alone(alloc, quiet("/", "E2", 89))?;
    let report = report("e12", 8_448_000, None, nodes);
    let remarks = Remarks {
        hint,
        ..no_remarks()
    };
    text_of(alloc, &report, &remarks)
}

#[test]
fn a_chain_that_was_given_has_hints(rt: HostRuntime) -> Result<(), Fail> {
    let nothing = Hint::Nothing {
        part_bits: 1_048_576,
    };
    let text = text_with(rt.alloc(), Some(nothing))?;
    let told = "  given      by --chain; its top isn't found in the first 1,048,576 bits
  read as    most significant bit first, not inverted
  hint       nothing else is found there either
  health     ";
    assert!(rt; text.as_str().contains(told), "{text}");
    let chain = Hint::Chain {
        part_bits: 4_096,
        chain: "m13",
        reading: OTHER,
    };
    let text = text_with(rt.alloc(), Some(chain))?;
    let told = "  given      by --chain; its top isn't found in the first 4,096 bits
  read as    most significant bit first, not inverted
  hint       m13 is found there, least significant bit first, inverted
  health     ";
    assert!(rt; text.as_str().contains(told), "{text}");
    Ok(())
}

#[test]
fn a_chain_that_was_given_and_stands_has_none(rt: HostRuntime) -> Result<(), Fail> {
    let text = text_with(rt.alloc(), None)?;
    let told = "  given      by --chain; nothing was tried
  read as    most significant bit first, not inverted
  health     ";
    assert!(rt; text.as_str().contains(told), "{text}");
    Ok(())
}

#[test]
fn a_top_that_was_never_aligned_is_not_healthy(rt: HostRuntime) -> Result<(), Fail> {
    let alloc = rt.alloc();
    let top = NodeReport {
        aligned: 0,
        too_short: true,
        ..quiet("/", "E2", 0)
    };
    let report = report("e12", 8_448_000, None, alone(alloc, top)?);
    assert!(rt; !report.healthy);
    let text = text_of(alloc, &report, &no_remarks())?;
    assert!(rt;
        text.as_str().contains("  health     too short to tell\n"),
        "{text}"
    );
    Ok(())
}
