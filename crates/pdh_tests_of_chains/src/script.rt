//! Worked scripts: their rows, their faults, and what they make of lines.

ghost use Rattle.std.specs.Prelude.{◌≤◌, length};

use pdh_edge::MemPort;
use pdh_packed::Packed;
use pdh_script::{ApplyStop, Script, ScriptFault};
use std::alloc::Global;
use std::test::Fail;

/// How many bytes the rows of a text add to a line of 16 bits, or the text's fault.
fn bytes_of(alloc: Global, text: &str) -> Result<u64, ScriptFault> {
    let script = Script::read(alloc, text.as_bytes(), 16)?;
    Ok(script.added_bytes())
}

#[test]
fn reads_each_kind_of_row(rt: HostRuntime) {
    let rows = [
        ("", Ok(0)),
        ("# a comment\n\n", Ok(0)),
        (
            "flip 0 1\nones 1 2\nzeros 3 4\ndrop 7 8\nadd 15 0aF0\n",
            Ok(2),
        ),
        ("add 16 00\nadd 16 ff", Ok(2)),
        ("flip 0 17", Err(ScriptFault::PastEnd { line: 1 })),
        (
            "#\n\nflip 1 2\nflip 2 15",
            Err(ScriptFault::BadRow { line: 4 }),
        ),
        ("add 0 123", Err(ScriptFault::BadRow { line: 1 })),
        ("add 0 0g", Err(ScriptFault::BadRow { line: 1 })),
        ("flip 0 1 ", Err(ScriptFault::BadRow { line: 1 })),
        ("flip 0 0", Err(ScriptFault::BadRow { line: 1 })),
        ("turn 0 1", Err(ScriptFault::BadRow { line: 1 })),
    ];
    for (text, answer) in rows {
        assert!(rt; bytes_of(rt.alloc(), text) == answer, "at {text}");
    }
}

/// The end of the disturbance of a line of these bytes, of which so many bits are asked for, and what was put, for which there
/// is room for so many bits.
fn disturbed(
    alloc: Global,
    line: &[u8],
    text: &str,
    bits: u64,
    room: usize,
) -> Result<(Result<(), ApplyStop>, String), Fail>
    requires { length line.now ≤ 20 }
{
    let script = Script::read(alloc, text.as_bytes(), bits)?;
    let mut lists = Vec::new(alloc);
    let mut list = Packed::open(alloc, 8 * line.len())?;
    list.append_bytes(line);
    lists.push(list)?;
    let mut port = MemPort::open(alloc, lists, 1)?;
    port.room(0, room)?;
    let mut buffer = Packed::short(alloc);
    let end = script.apply(bits, &mut buffer, &mut port);
    let put = port.output(0);
    let mut shown = String::new(alloc);
    for place in 0..put.len() {
        shown.push(if put.get(place) { '1' } else { '0' })?;
    }
    Ok((end, shown))
}

#[test]
fn disturbs_a_short_line(rt: HostRuntime) -> Result<(), Fail> {
    let rows: [(&str, u64, usize, Result<(), ApplyStop>, &str); 6] = [
        ("", 8, 8, Ok(()), "00000000"),
        ("flip 1 2\ndrop 3 1\nones 6 1", 8, 8, Ok(()), "0110010"),
        (
            "add 8 a5\nadd 8 0f",
            8,
            24,
            Ok(()),
            "000000001010010100001111",
        ),
        (
            "ones 0 3\nzeros 1000 1",
            1001,
            9,
            Err(ApplyStop::Ended),
            "11100000",
        ),
        ("add 0 ff", 8, 8, Err(ApplyStop::WriteFailed), "11111111"),
        ("add 8 ff", 8, 8, Err(ApplyStop::WriteFailed), "00000000"),
    ];
    for (text, bits, room, end, line) in rows {
        let (ended, put) = disturbed(rt.alloc(), &[0], text, bits, room)?;
        assert!(rt; ended == end, "at {text}");
        assert!(rt; put.as_str() == line, "at {text}");
    }
    Ok(())
}

#[test]
fn disturbs_a_line_of_many_words(rt: HostRuntime) -> Result<(), Fail> {
    let text = "ones 10 100\nadd 130 00ff00ff00ff00ff00ff\ndrop 140 5\n";
    let (ended, put) = disturbed(rt.alloc(), &[0; 20], text, 160, 235)?;
    assert!(rt; ended == Ok(()));
    let runs = [
        ('0', 10),
        ('1', 100),
        ('0', 28),
        ('1', 8),
        ('0', 8),
        ('1', 8),
        ('0', 8),
        ('1', 8),
        ('0', 8),
        ('1', 8),
        ('0', 8),
        ('1', 8),
        ('0', 25),
    ];
    let mut line = String::new(rt.alloc());
    for (bit, count) in runs {
        for _ in 0..count {
            line.push(bit)?;
        }
    }
    assert!(rt; put.as_str() == line.as_str());
    Ok(())
}

#[test]
fn counts_the_bits_of_a_disturbed_line(rt: HostRuntime) -> Result<(), Fail> {
    let text = "flip 1 2\ndrop 3 4\nadd 8 a5\n";
    let script = Script::read(rt.alloc(), text.as_bytes(), 8)?;
    assert!(rt; script.bits_of(8) == 12);
    Ok(())
}

#[test]
fn names_faults(rt: HostRuntime) -> Result<(), Fail> {
    let rows = [
        (ScriptFault::TooLong { len: 1_048_577 }, "too long"),
        (ScriptFault::BadRow { line: 3 }, "line 3: bad row"),
        (
            ScriptFault::PastEnd { line: 70_000 },
            "line 70000: past the end",
        ),
        (ScriptFault::Memory, "memory"),
    ];
    for (fault, text) in rows {
        let shown = format!(in rt.alloc(); "{fault}")?;
        assert!(rt; shown.as_str() == text);
    }
    Ok(())
}
