//! Worked schedules.

ghost use Rattle.std.specs.Prelude.{◌<◌};

use pdh_chain::{DS2_LOCKED_LEVEL, DS3_LOCKED_LEVEL, E2_LEVEL, E3_LEVEL, E4_LEVEL};
use pdh_clock::{Bias, Outside, Schedule, ScheduleFault, Short};
use pdh_shape::{LEAD, Level, MOST_BYTES, Path, TOP};
use std::alloc::Global;
use std::process::Abort;
use std::test::Fail;

/// The node of the top's first tributary.
const FIRST: Path = Path {
    depth: 1,
    first: 1,
    second: 0,
};

/// How many frames a text gives the top, or the text's fault.
fn frames_of(alloc: Global, text: &[u8]) -> Result<u64, ScheduleFault> {
    let schedule = Schedule::read(alloc, &[E2_LEVEL], text)?;
    Ok(schedule.frames(&TOP))
}

/// What a text is written as, or the text's fault.
fn written(alloc: Global, text: &[u8]) -> Result<Vec<u8>, ScheduleFault> {
    let schedule = Schedule::read(alloc, &[E2_LEVEL], text)?;
    Ok(schedule.text(alloc)?)
}

#[test]
fn reads_frames(rt: HostRuntime) {
    let rows: [(&str, u64); 6] = [
        ("", 0),
        ("/ 3 206 206 206 206", 3),
        (
            "# two rows\n\n/ 3 206 206 206 206\n#\n/ 1 205 205 205 205",
            4,
        ),
        ("/ 1 0 0 0 0\n", 1),
        ("/ 1 848 848 848 848\n\n", 1),
        ("/ 999999999 1 2 3 4\n/ 999999999 1 2 3 4\n", 1_999_999_998),
    ];
    for (text, frames) in rows {
        let answer = frames_of(rt.alloc(), text.as_bytes());
        assert!(rt; answer == Ok(frames), "at {text}");
    }
}

#[test]
fn names_the_first_fault(rt: HostRuntime) {
    let bad = ScheduleFault::BadRow { line: 1 };
    let unknown = ScheduleFault::UnknownNode { line: 1 };
    let over = |count: u64| ScheduleFault::CountOver {
        line: 1,
        count,
        most: 848,
    };
    let rows = [
        // First the form is judged, then the node, then how many counts there are, then each count.
        ("/1 x 206 206 206 206", bad),
        ("/1 3 206", unknown),
        ("/4/9 3 206 206 206 206", unknown),
        ("/ 1 900 206 206", bad),
        ("/ 1 900 206 206 206 206", bad),
        ("/ 1 206 206 206 206 206 206 206 206", bad),
        ("/ 1", bad),
        ("/ 1 849 206 206 206", over(849)),
        ("/ 1 206 900 849 206\nx", over(900)),
        // Lines that are passed over count.
        (
            "# none\n\n/ 0 206 206 206 206",
            ScheduleFault::BadRow { line: 3 },
        ),
        // Numbers.
        ("/ 03 206 206 206 206", bad),
        ("/ 3 206 206 206 00", bad),
        ("/ 1000000000 206 206 206 206", bad),
        ("/ 3 206 206 206 +206", bad),
        // Blanks.
        ("/ 3  206 206 206 206", bad),
        ("/ 3 206 206 206 206 ", bad),
        (" / 3 206 206 206 206", bad),
        ("/\t3 206 206 206 206", bad),
        ("/ 3 206 206 206 206\r\n", bad),
        ("\r\n", bad),
        // Paths.
        ("/0 3 206 206 206 206", bad),
        ("/1/ 3 206 206 206 206", bad),
        ("1 3 206 206 206 206", bad),
        ("/", bad),
    ];
    for (text, fault) in rows {
        let answer = frames_of(rt.alloc(), text.as_bytes());
        assert!(rt; answer == Err(fault), "at {text}");
    }
}

#[test]
fn refuses_a_long_text(rt: HostRuntime) -> Result<(), Fail> {
    let text = vec![in rt.alloc(); b'\n'; MOST_BYTES + 1]?;
    let fault = ScheduleFault::TooLong { len: 33_554_433 };
    assert!(rt; frames_of(rt.alloc(), &text) == Err(fault));
    Ok(())
}

#[test]
fn finds_counts_and_totals(rt: HostRuntime) -> Result<(), Fail> {
    let text = b"/ 2 206 205 204 203\n/ 1 0 1 2 3\n/ 3 848 0 7 206\n/ 999999999 848 1 1 1\n";
    let schedule = Schedule::read(rt.alloc(), &[E2_LEVEL], text)?;
    assert!(rt; schedule.frames(&TOP) == 1_000_000_005);
    let rows: [(u64, u32, u32, u64); 9] = [
        // A frame, the first and the last tributary's count in it, and the first one's bits before it.
        (0, 206, 203, 0),
        (1, 206, 203, 206),
        (2, 0, 3, 412),
        (3, 848, 206, 412),
        (4, 848, 206, 1_260),
        (5, 848, 206, 2_108),
        (6, 848, 1, 2_956),
        (7, 848, 1, 3_804),
        (1_000_000_004, 848, 1, 848_000_001_260),
    ];
    for (frame, first, last, total) in rows {
        assert!(rt; frame < schedule.frames(&TOP));
        let found = (
            schedule.count(&TOP, frame, 0),
            schedule.count(&TOP, frame, 3),
            schedule.total(&TOP, frame, 0),
        );
        assert!(rt; found == (first, last, total), "at {frame}");
    }
    assert!(rt; schedule.total(&TOP, schedule.frames(&TOP), 0) == 848_000_002_108);
    assert!(rt; schedule.short(5).is_none());
    assert!(rt; schedule.begun(&TOP, 5) == 5);
    Ok(())
}

#[test]
fn keeps_stores_inside(rt: HostRuntime) -> Result<(), Fail> {
    let text = b"/ 3 206 206 206 206\n/ 1 247 165 160 248\n/ 2 206 206 206 206\n";
    let schedule = Schedule::read(rt.alloc(), &[E2_LEVEL], text)?;
    let rows: [(u8, u64, u64, bool); 9] = [
        // A tributary, the fill of its store at the start of frame 0, and whether the store stays inside up to a frame.
        (0, 4, 3, true),
        (0, 3, 3, false),
        (0, 89, 3, true),
        (0, 90, 3, false),
        (0, 48, 6, true),
        (1, 48, 6, true),
        (2, 48, 3, true),
        (2, 48, 4, false),
        (3, 48, 4, false),
    ];
    for (trib, fill, end, inside) in rows {
        assert!(rt; trib < 4);
        assert!(rt; end <= schedule.frames(&TOP));
        assert!(rt;
            schedule.stays_inside(&TOP, trib, fill, 0, end) == inside,
            "tributary {trib} from {fill}"
        );
    }
    Ok(())
}

#[test]
fn finds_counts_at_the_largest_offsets(rt: HostRuntime) -> Result<(), Fail> {
    let text = b"version 2\nrate / 131072 -1000 1000 0 -1000 999\n/ 1 0 0 0 0\n";
    let schedule = Schedule::read(rt.alloc(), &[E2_LEVEL], text)?;
    assert!(rt; schedule.frames(&TOP) == 131_073);
    // So many frames, and the bits of each tributary in them.
    let rows: [(u64, [u64; 4]); 5] = [
        (1, [205, 205, 205, 205]),
        (3, [617, 617, 616, 617]),
        (131_071, [26_998_964, 26_971_992, 26_945_020, 26_998_937]),
        (131_072, [26_999_170, 26_972_197, 26_945_225, 26_999_143]),
        (131_073, [26_999_170, 26_972_197, 26_945_225, 26_999_143]),
    ];
    for (frames, totals) in rows {
        assert!(rt; frames <= schedule.frames(&TOP));
        for trib in 0..4 {
            let total = schedule.total(&TOP, frames, trib);
            assert!(rt; total == totals[usize::from(trib)], "at {frames}, {trib}");
        }
    }
    let last = [
        schedule.count(&TOP, 131_071, 0),
        schedule.count(&TOP, 131_071, 1),
    ];
    assert!(rt; last == [206, 205]);
    Ok(())
}

#[test]
fn writes_longest_rows(rt: HostRuntime) -> Result<(), Fail> {
    let rows: [(&str, &str); 9] = [
        ("", ""),
        ("# none\n\n", ""),
        ("/ 1 0 10 205 848", "/ 1 0 10 205 848\n"),
        (
            "/ 1 1 2 3 4\n/ 2 1 2 3 4\n# c\n\n/ 1 1 2 3 5",
            "/ 3 1 2 3 4\n/ 1 1 2 3 5\n",
        ),
        // Rows that differ in their first or their last count, and equal ones that another stands between.
        (
            "/ 2 1 2 3 4\n/ 3 2 2 3 4\n/ 4 2 2 3 5\n/ 5 1 2 3 4\n",
            "/ 2 1 2 3 4\n/ 3 2 2 3 4\n/ 4 2 2 3 5\n/ 5 1 2 3 4\n",
        ),
        (
            "/ 1 5 5 5 5\n/ 9 6 6 6 6\n/ 1 6 6 6 6\n/ 90 6 6 6 6\n",
            "/ 1 5 5 5 5\n/ 100 6 6 6 6\n",
        ),
        // More frames than a row that is read may have.
        (
            "/ 999999999 1 2 3 4\n/ 999999999 1 2 3 4\n",
            "/ 1999999998 1 2 3 4\n",
        ),
        // Rows at offsets, frame by frame, which join the rows before and behind them.
        (
            "version 2\nrate / 3 0 0 0 0 0\n/ 2 205 205 205 205\n",
            "/ 1 205 205 205 205\n/ 1 206 206 206 206\n/ 3 205 205 205 205\n",
        ),
        (
            "version 2\n/ 1 205 205 205 205\nrate / 2 0 0 0 0 0\n",
            "/ 2 205 205 205 205\n/ 1 206 206 206 206\n",
        ),
    ];
    for (text, expected) in rows {
        let answer = written(rt.alloc(), text.as_bytes())?;
        assert!(rt; answer.as_slice() == expected.as_bytes(), "at {text}");
    }
    Ok(())
}

#[test]
fn makes_nominal_counts(rt: HostRuntime) -> Result<(), Fail> {
    let schedule = Schedule::from_ppm(rt.alloc(), &[E2_LEVEL], 3, Bias::Nominal)?;
    assert!(rt; schedule.frames(&TOP) == 3);
    for (frame, count) in [(0, 205), (1, 206), (2, 205)] {
        assert!(rt; frame < schedule.frames(&TOP));
        for trib in 0..4 {
            assert!(rt;
                schedule.count(&TOP, frame, trib) == count,
                "at {frame}, {trib}"
            );
        }
    }
    Ok(())
}

#[test]
fn makes_biased_counts(rt: HostRuntime) -> Result<(), Fail> {
    // A frame, the first and the second tributary's count in it, and the bits of both up to its end.
    let rows: [(Bias, u64, [u32; 2], [u64; 2]); 12] = [
        (Bias::Fast, 0, [205, 205], [205, 205]),
        (Bias::Fast, 6, [206, 206], [1_439, 1_439]),
        (Bias::Fast, 12, [205, 205], [2_672, 2_672]),
        (Bias::Fast, 9_999, [206, 206], [2_055_922, 2_055_922]),
        (Bias::Slow, 0, [205, 205], [205, 205]),
        (Bias::Slow, 6, [205, 205], [1_438, 1_438]),
        (Bias::Slow, 12, [206, 206], [2_672, 2_672]),
        (Bias::Slow, 9_999, [206, 206], [2_055_593, 2_055_593]),
        (Bias::Mixed, 0, [205, 205], [205, 205]),
        (Bias::Mixed, 6, [206, 205], [1_439, 1_438]),
        (Bias::Mixed, 12, [206, 206], [2_672, 2_672]),
        (Bias::Mixed, 9_999, [205, 206], [2_055_798, 2_055_593]),
    ];
    for (bias, frame, counts, totals) in rows {
        let schedule = Schedule::from_ppm(rt.alloc(), &[E2_LEVEL], 10_000, bias)?;
        assert!(rt; schedule.frames(&TOP) == 10_000);
        assert!(rt; frame < schedule.frames(&TOP));
        for trib in 0..2 {
            let at = usize::from(trib);
            let found = (
                schedule.count(&TOP, frame, trib),
                schedule.total(&TOP, frame + 1, trib),
            );
            assert!(rt; found == (counts[at], totals[at]), "at {frame}, {trib}");
        }
    }
    Ok(())
}

/// Whether a tributary is within the tolerance in the schedule of a text, or the text's fault.
fn within(alloc: Global, text: &[u8], trib: u8) -> Result<Result<(), Outside>, ScheduleFault>
    requires { trib < 4 }
{
    let schedule = Schedule::read(alloc, &[E2_LEVEL], text)?;
    Ok(schedule.within(&TOP, trib))
}

/// The run from one frame up to another, which brings so many bits, is outside.
fn outside(from: u64, to: u64, sum: u64) -> Result<(), Outside> {
    Err(Outside { from, to, sum })
}

/// That a tributary of a text's schedule is within the tolerance, or the first run that isn't.
fn assert_row(rt: &impl Abort, alloc: Global, row: (&str, u8, Result<(), Outside>)) {
    let (text, trib, expected) = row;
    assert!(rt; trib < 4);
    let answer = within(alloc, text.as_bytes(), trib);
    assert!(rt; answer == Ok(expected), "at {text}, {trib}");
}

// A run of k frames may bring from 205 k - 18 to 206 k + 18 bits.
#[test]
fn finds_the_first_run_outside(rt: HostRuntime) {
    let rows = [
        ("", 0, Ok(())),
        ("/ 1 224 206 206 206\n/ 9 206 206 206 206", 0, Ok(())),
        ("/ 1 224 206 206 206\n/ 9 206 206 206 206", 1, Ok(())),
        ("/ 1 224 206 206 206\n/ 9 206 206 206 206", 2, Ok(())),
        ("/ 1 224 206 206 206\n/ 9 206 206 206 206", 3, Ok(())),
        (
            "/ 1 225 206 206 206\n/ 9 206 206 206 206",
            0,
            outside(0, 1, 225),
        ),
        ("/ 1 225 206 206 206\n/ 9 206 206 206 206", 1, Ok(())),
        // Each frame lacks one bit, so 18 frames are inside, and 19 aren't.
        ("/ 18 204 206 206 206", 0, Ok(())),
        ("/ 19 204 206 206 206", 0, outside(0, 19, 3_876)),
        ("/ 19 206 206 206 204", 3, outside(0, 19, 3_876)),
        // And with one bit too many in each.
        ("/ 18 207 206 206 206", 0, Ok(())),
        ("/ 999999999 207 206 206 206", 0, outside(0, 19, 3_933)),
    ];
    for row in rows {
        assert_row(&rt, rt.alloc(), row);
    }
}

#[test]
fn finds_where_the_first_run_outside_begins(rt: HostRuntime) {
    let rows = [
        // Frames of 206 bits leave what is above 206 as it is, so the first run begins with the first of them.
        (
            "/ 100 206 206 206 206\n/ 1 225 206 206 206",
            0,
            outside(0, 101, 20_825),
        ),
        // Each frame of 205 bits takes one away from what is above 206.
        (
            "/ 100 205 206 206 206\n/ 1 226 206 206 206",
            0,
            outside(99, 101, 431),
        ),
        // Each frame of 206 bits takes one away from what is below 205.
        (
            "/ 1000 206 206 206 206\n/ 50 203 206 206 206",
            0,
            outside(999, 1_010, 2_236),
        ),
        (
            "/ 1000 205 206 206 206\n/ 50 203 206 206 206",
            0,
            outside(0, 1_010, 207_030),
        ),
    ];
    for row in rows {
        assert_row(&rt, rt.alloc(), row);
    }
}

#[test]
fn finds_a_run_over_several_rows(rt: HostRuntime) {
    let rows = [
        (
            "/ 9 207 206 206 206\n/ 4 206 206 206 206\n/ 10 207 206 206 206",
            0,
            outside(0, 23, 4_757),
        ),
        (
            "/ 4 207 206 206 206\n/ 4 205 206 206 206\n/ 18 207 206 206 206",
            0,
            Ok(()),
        ),
        (
            "/ 4 207 206 206 206\n/ 4 205 206 206 206\n/ 19 207 206 206 206",
            0,
            outside(0, 27, 5_581),
        ),
        // First too many bits or too few, and too many after a few that lack, but not enough to be outside.
        ("/ 1 300 0 0 0\n/ 1 0 400 400 400", 0, outside(0, 1, 300)),
        ("/ 1 300 0 0 0\n/ 1 0 400 400 400", 1, outside(0, 1, 0)),
        (
            "/ 5 204 206 206 206\n/ 1 225 206 206 206",
            0,
            outside(5, 6, 225),
        ),
    ];
    for row in rows {
        assert_row(&rt, rt.alloc(), row);
    }
}

#[test]
fn finds_a_run_in_long_rows(rt: HostRuntime) {
    let rows = [
        (
            "/ 999999999 206 205 206 206\n/ 999999999 206 205 206 206",
            1,
            Ok(()),
        ),
        (
            "/ 999999999 206 206 206 206\n/ 1 225 206 206 206",
            0,
            outside(0, 1_000_000_000, 206_000_000_019),
        ),
        (
            "/ 999999999 205 206 206 206\n/ 1 226 206 206 206",
            0,
            outside(999_999_998, 1_000_000_000, 431),
        ),
    ];
    for row in rows {
        assert_row(&rt, rt.alloc(), row);
    }
}

/// What a text of two levels is written as, and the first node that has too few frames in the time of so many of the top,
/// or the text's fault.
fn read_two_levels(
    alloc: Global,
    text: &[u8],
    top_frames: u64,
) -> Result<(Vec<u8>, Option<Short>), ScheduleFault> {
    let schedule = Schedule::read(alloc, &[E3_LEVEL, E2_LEVEL], text)?;
    let short = if top_frames <= schedule.frames(&TOP) {
        schedule.short(top_frames)
    } else {
        None
    };
    Ok((schedule.text(alloc)?, short))
}

#[test]
fn reads_two_levels(rt: HostRuntime) -> Result<(), Fail> {
    let short = |first: u8, have: u64, need: u64| {
        let node = Path {
            depth: 1,
            first,
            second: 0,
        };
        Some(Short { node, have, need })
    };
    let rows: [(&str, u64, &str, Option<Short>); 4] = [
        // Three frames of 377 bits and the lead of 48 are 1179 bits: one frame of 848 and a part of another.
        (
            "/ 3 377 377 377 377",
            3,
            "/ 3 377 377 377 377\n",
            short(1, 0, 2),
        ),
        ("/ 3 377 377 377 377", 0, "/ 3 377 377 377 377\n", None),
        // Rows of the nodes in any order; those of one node are joined in order of lines.
        (
            "/2 1 1 2 3 4\n/4 2 1 2 3 4\n/ 2 377 378 377 377\n/1 2 5 6 7 8\n/2 1 5 6 7 8\n/ 1 377 378 377 377\n/3 1 0 0 0 0\n",
            3,
            "/ 3 377 378 377 377\n/1 2 5 6 7 8\n/2 1 1 2 3 4\n/2 1 5 6 7 8\n/3 1 0 0 0 0\n/4 2 1 2 3 4\n",
            short(3, 1, 2),
        ),
        (
            "/4 2 1 2 3 4\n/3 9 1 2 3 4\n/1 2 5 6 7 8\n/2 3 1 2 3 4\n/ 3 377 377 377 377\n",
            3,
            "/ 3 377 377 377 377\n/1 2 5 6 7 8\n/2 3 1 2 3 4\n/3 9 1 2 3 4\n/4 2 1 2 3 4\n",
            None,
        ),
    ];
    for (text, top_frames, written, short) in rows {
        let answer = read_two_levels(rt.alloc(), text.as_bytes(), top_frames)?;
        assert!(rt; answer.0.as_slice() == written.as_bytes(), "at {text}");
        assert!(rt; answer.1 == short, "at {text}");
    }
    Ok(())
}

#[test]
fn names_unknown_nodes(rt: HostRuntime) {
    let unknown = |line: u32| ScheduleFault::UnknownNode { line };
    let over = ScheduleFault::CountOver {
        line: 1,
        count: 849,
        most: 848,
    };
    let rows = [
        ("/5 1 1 2 3 4", unknown(1)),
        ("/1/1 1 1 2 3 4", unknown(1)),
        ("/ 1 1536 0 0 0\n/9 1 1 2 3 4", unknown(2)),
        ("/1 1 849 0 0 0", over),
    ];
    for (text, fault) in rows {
        let answer = read_two_levels(rt.alloc(), text.as_bytes(), 0).err();
        assert!(rt; answer == Some(fault), "at {text}");
    }
}

#[test]
fn begins_frames_below(rt: HostRuntime) -> Result<(), Fail> {
    let text = b"/ 3 377 377 377 377\n/1 2 1 2 3 4\n/2 2 1 2 3 4\n/3 2 1 2 3 4\n/4 2 1 2 3 4\n";
    let schedule = Schedule::read(rt.alloc(), &[E3_LEVEL, E2_LEVEL], text)?;
    assert!(rt; schedule.frames(&FIRST) == 2);
    assert!(rt; 3 <= schedule.frames(&TOP));
    assert!(rt; schedule.short(3).is_none());
    assert!(rt; schedule.begun(&FIRST, 3) == 2);
    Ok(())
}

#[test]
fn makes_three_levels(rt: HostRuntime) -> Result<(), Fail> {
    let levels = [E4_LEVEL, E3_LEVEL, E2_LEVEL];
    let schedule = Schedule::from_ppm(rt.alloc(), &levels, 200, Bias::Mixed)?;
    assert!(rt; schedule.frames(&TOP) == 200);
    assert!(rt; 200 <= schedule.frames(&TOP));
    assert!(rt; schedule.short(200).is_none());
    let bits = u128::from(LEAD) + u128::from(schedule.total(&TOP, 200, 0));
    assert!(rt; u128::from(schedule.frames(&FIRST)) == bits.div_ceil(1_536));
    let text = schedule.text(rt.alloc())?;
    let again = Schedule::read(rt.alloc(), &levels, &text)?;
    assert!(rt; again.text(rt.alloc())?.as_slice() == text.as_slice());
    let last = Path {
        depth: 2,
        first: 4,
        second: 4,
    };
    for node in [TOP, FIRST, last] {
        assert!(rt; again.frames(&node) == schedule.frames(&node));
    }
    Ok(())
}

/// The levels of a 44736 kbit/s line with C-bit parity, whose top has no stores.
const LOCKED: [Level; 2] = [DS3_LOCKED_LEVEL, DS2_LOCKED_LEVEL];

/// How many frames a text gives such a top, what it is written as, and the first node that has too few frames in the time of
/// all of the top; or the text's fault.
fn read_locked(alloc: Global, text: &[u8]) -> Result<(u64, Vec<u8>, Option<Short>), ScheduleFault> {
    let schedule = Schedule::read(alloc, &LOCKED, text)?;
    let frames = schedule.frames(&TOP);
    let short = schedule.short(frames);
    Ok((frames, schedule.text(alloc)?, short))
}

#[test]
fn judges_rows_of_a_top_without_stores(rt: HostRuntime) {
    let bad = ScheduleFault::BadRow { line: 1 };
    let unknown = ScheduleFault::UnknownNode { line: 1 };
    let over = ScheduleFault::CountOver {
        line: 1,
        count: 1_177,
        most: 1_176,
    };
    let rows = [
        ("/ 17 671", bad),
        ("/ 17 671 671 671 671 671 671 671", bad),
        ("/ 17 0\n/9 1 1", bad),
        ("/ 1 1 1 1 1 1 1 1 1", bad),
        ("/ 0", bad),
        ("/ ", bad),
        ("/ 12 ", bad),
        ("/1 1 1", bad),
        ("/8 1 1 1 1 1", unknown),
        ("/9 4 287 287", unknown),
        ("/1/1 3 1 2 3 4", unknown),
        ("/1 1 1177 1 1 1", over),
    ];
    for (text, fault) in rows {
        let answer = read_locked(rt.alloc(), text.as_bytes()).err();
        assert!(rt; answer == Some(fault), "at {text}");
    }
}

#[test]
fn reads_a_top_without_stores(rt: HostRuntime) -> Result<(), Fail> {
    let short = |first: u8, have: u64, need: u64| {
        let node = Path {
            depth: 1,
            first,
            second: 0,
        };
        Some(Short { node, have, need })
    };
    let rows: [(&str, u64, &str, Option<Short>); 5] = [
        ("/1 4 287 287 287 287\n", 0, "/1 4 287 287 287 287\n", None),
        // Three frames of 671 bits are one frame of 1176 and a part of another.
        (
            "/ 3\n/1 1 288 288 288 288\n",
            3,
            "/ 3\n/1 1 288 288 288 288\n",
            short(1, 1, 2),
        ),
        (
            "/ 1\n/ 2\n/1 10 288 288 288 288\n/ 14\n",
            17,
            "/ 17\n/1 10 288 288 288 288\n",
            short(2, 0, 10),
        ),
        (
            "/ 17\n/1 10 1 1 1 1\n/2 10 1 1 1 1\n/3 10 1 1 1 1\n/4 10 1 1 1 1\n/5 10 1 1 1 1\n/6 10 1 1 1 1\n/7 9 1 1 1 1\n",
            17,
            "/ 17\n/1 10 1 1 1 1\n/2 10 1 1 1 1\n/3 10 1 1 1 1\n/4 10 1 1 1 1\n/5 10 1 1 1 1\n/6 10 1 1 1 1\n/7 9 1 1 1 1\n",
            short(7, 9, 10),
        ),
        (
            "/ 17\n/1 10 1 1 1 1\n/2 10 1 1 1 1\n/3 10 1 1 1 1\n/4 10 1 1 1 1\n/5 10 1 1 1 1\n/6 10 1 1 1 1\n/7 10 1 1 1 1\n",
            17,
            "/ 17\n/1 10 1 1 1 1\n/2 10 1 1 1 1\n/3 10 1 1 1 1\n/4 10 1 1 1 1\n/5 10 1 1 1 1\n/6 10 1 1 1 1\n/7 10 1 1 1 1\n",
            None,
        ),
    ];
    for (text, frames, written, short) in rows {
        let answer = read_locked(rt.alloc(), text.as_bytes())?;
        assert!(rt; answer.0 == frames, "at {text}");
        assert!(rt; answer.1.as_slice() == written.as_bytes(), "at {text}");
        assert!(rt; answer.2 == short, "at {text}");
    }
    Ok(())
}

#[test]
fn enters_bits_below_a_top_without_stores(rt: HostRuntime) -> Result<(), Fail> {
    let text =
        b"/ 17\n/1 10 288 288 288 288\n/2 10 288 288 288 288\n/3 10 288 288 288 288\n/4 10 288 288 288 288\n/5 10 288 288 288 288\n/6 10 288 288 288 288\n/7 10 288 288 288 287\n";
    let schedule = Schedule::read(rt.alloc(), &LOCKED, text)?;
    assert!(rt; 17 <= schedule.frames(&TOP));
    assert!(rt; schedule.short(17).is_none());
    assert!(rt; schedule.begun(&FIRST, 17) == 10);
    for (leaf, bits) in [(0, 2_928), (3, 2_928), (26, 2_928), (27, 2_918)] {
        assert!(rt; leaf < 28);
        assert!(rt; schedule.entered(leaf, 17) == bits, "at {leaf}");
    }
    Ok(())
}

#[test]
fn makes_a_top_without_stores(rt: HostRuntime) -> Result<(), Fail> {
    // The bits of the first and of the second leaf of each node in the time of 1000 frames of the top.
    let rows: [(Bias, [u64; 2]); 3] = [
        (Bias::Fast, [164_408, 164_408]),
        (Bias::Slow, [164_404, 164_404]),
        (Bias::Mixed, [164_408, 164_397]),
    ];
    let last = Path {
        depth: 1,
        first: 7,
        second: 0,
    };
    for (bias, totals) in rows {
        let schedule = Schedule::from_ppm(rt.alloc(), &LOCKED, 1_000, bias)?;
        assert!(rt; schedule.frames(&TOP) == 1_000);
        for node in [FIRST, last] {
            assert!(rt; schedule.frames(&node) == 571);
            let found = [schedule.total(&node, 571, 0), schedule.total(&node, 571, 1)];
            assert!(rt; found == totals);
        }
    }
    Ok(())
}

#[test]
fn reads_back_a_made_top_without_stores(rt: HostRuntime) -> Result<(), Fail> {
    let schedule = Schedule::from_ppm(rt.alloc(), &LOCKED, 12, Bias::Nominal)?;
    let text = schedule.text(rt.alloc())?;
    let expected =
        "/ 12\n/1 1 287 287 287 287\n/1 6 288 288 288 288\n/2 1 287 287 287 287\n/2 6 288 288 288 288\n/3 1 287 287 287 287\n/3 6 288 288 288 288\n/4 1 287 287 287 287\n/4 6 288 288 288 288\n/5 1 287 287 287 287\n/5 6 288 288 288 288\n/6 1 287 287 287 287\n/6 6 288 288 288 288\n/7 1 287 287 287 287\n/7 6 288 288 288 288\n";
    assert!(rt; text.as_slice() == expected.as_bytes());
    let again = Schedule::read(rt.alloc(), &LOCKED, &text)?;
    assert!(rt; again.text(rt.alloc())?.as_slice() == text.as_slice());
    assert!(rt; again.frames(&TOP) == 12);
    Ok(())
}
