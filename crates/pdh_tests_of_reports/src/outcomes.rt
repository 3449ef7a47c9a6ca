//! What is said where there is no report.

use pdh_report::Reading;
use pdh_report_text::{NearestTop, Outcome, outcome_text};
use std::test::Fail;

#[test]
fn one_value_throughout_is_told(rt: HostRuntime) -> Result<(), Fail> {
    let ones = outcome_text(rt.alloc(), &Outcome::AllOnes)?;
    assert_eq!(rt; ones.as_str(), "all ones\n");
    let zeros = outcome_text(rt.alloc(), &Outcome::AllZeros)?;
    assert_eq!(rt; zeros.as_str(), "all zeros\n");
    Ok(())
}

#[test]
fn the_nearest_tops_are_told(rt: HostRuntime) -> Result<(), Fail> {
    let nearest = [
        NearestTop {
            level: "E2",
            reading: Reading {
                lsb_first: false,
                inverted: true,
            },
            judged: 12,
            right: 3,
        },
        NearestTop {
            level: "DS1",
            reading: Reading {
                lsb_first: true,
                inverted: false,
            },
            judged: 1_234,
            right: 2,
        },
    ];
    let outcome = Outcome::Nothing {
        part_bits: 1_048_576,
        nearest: &nearest,
    };
    let text = outcome_text(rt.alloc(), &outcome)?;
    let told = "nothing found in the first 1,048,576 bits
nearest    E2, msb first, inverted: 3 of 12 frames right
nearest    DS1, lsb first, not inverted: 2 of 1,234 frames right
try --from, or --chain
";
    assert_eq!(rt; text.as_str(), told);
    Ok(())
}

#[test]
fn nothing_may_be_near(rt: HostRuntime) -> Result<(), Fail> {
    let outcome = Outcome::Nothing {
        part_bits: 8,
        nearest: &[],
    };
    let text = outcome_text(rt.alloc(), &outcome)?;
    assert_eq!(rt;
        text.as_str(),
        "nothing found in the first 8 bits\ntry --from, or --chain\n"
    );
    Ok(())
}
