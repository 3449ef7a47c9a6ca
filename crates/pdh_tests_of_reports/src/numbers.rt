//! Numbers and times.

use pdh_report_text::{clock_time, count, duration, grouped};
use std::test::Fail;

#[test]
fn numbers_stand_in_threes(rt: HostRuntime) -> Result<(), Fail> {
    let told = [
        (0u64, "0"),
        (7, "7"),
        (999, "999"),
        (1_000, "1,000"),
        (123_456, "123,456"),
        (1_048_576, "1,048,576"),
        (u64::MAX, "18,446,744,073,709,551,615"),
    ];
    for (number, text) in told.iter() {
        let made = grouped(rt.alloc(), *number)?;
        assert_eq!(rt; made.as_str(), *text);
    }
    assert_eq!(rt; count(rt.alloc(), 0)?.as_str(), "-");
    assert_eq!(rt; count(rt.alloc(), 1_000)?.as_str(), "1,000");
    Ok(())
}

#[test]
fn durations_are_cut_off(rt: HostRuntime) -> Result<(), Fail> {
    let told = [
        (0u64, "-"),
        (1, "<1 us"),
        (8, "<1 us"),
        (9, "1 us"),
        (8_447, "999 us"),
        (8_448, "1.0 ms"),
        (8_447_999, "999.9 ms"),
        (8_448_000, "1.0 s"),
        (16_895_999, "1.9 s"),
        (30_412_800_000, "3600.0 s"),
    ];
    for (bits, text) in told.iter() {
        let made = duration(rt.alloc(), *bits, 8_448_000)?;
        assert_eq!(rt; made.as_str(), *text);
    }
    let longest = duration(rt.alloc(), u64::MAX, 1)?;
    assert_eq!(rt; longest.as_str(), "18446744073709551615.0 s");
    Ok(())
}

#[test]
fn places_have_six_digits(rt: HostRuntime) -> Result<(), Fail> {
    let told = [
        (0u64, "0.000000"),
        (208_205, "0.004654"),
        (44_736_000, "1.000000"),
        (44_780_736, "1.001000"),
    ];
    for (bit, text) in told.iter() {
        let made = clock_time(rt.alloc(), *bit, 44_736_000)?;
        assert_eq!(rt; made.as_str(), *text);
    }
    Ok(())
}
