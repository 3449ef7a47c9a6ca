//! Files and an output in memory.

use pdh_edge::{Call, Failed, MemShelf, MemSink, NeverFails, Shelf, Sink};
use std::alloc::{AllocError, Global};

// A shelf with two files, the second of which has room for fewer bytes than its memory.
fn shelf_of_two(alloc: Global) -> Result<MemShelf, AllocError> {
    let mut shelf = MemShelf::open(alloc)?;
    shelf.hold("line", b"abcdef")?;
    shelf.hold("out", b"0123456789")?;
    shelf.room("out", 4)?;
    Ok(shelf)
}

#[test]
fn sizes_of_files_in_memory(rt: HostRuntime) -> Result<(), AllocError> {
    let mut shelf = shelf_of_two(rt.alloc())?;
    shelf.fail(Call::Size, 2)?;
    for (name, want) in [
        ("line", Ok(Some(6))),
        ("none", Ok(None)),
        ("line", Err(Failed)),
        ("out", Ok(Some(10))),
    ] {
        assert!(rt; shelf.size(name) == want, "size of {name}");
    }
    assert!(rt; (shelf.read_faults(), shelf.write_faults(), shelf.misses()) == (1, 0, 1));
    Ok(())
}

#[test]
fn bytes_of_a_file_in_memory(rt: HostRuntime) -> Result<(), AllocError> {
    let mut shelf = shelf_of_two(rt.alloc())?;
    shelf.fail(Call::Read, 1)?;
    for (at, want, read) in [
        (2, Ok(()), b"cde"),
        (2, Err(Failed), b"---"),
        (3, Ok(()), b"def"),
        (4, Err(Failed), b"---"),
    ] {
        let mut buffer = [b'-'; 3];
        assert!(rt;
            shelf.read_at("line", at, &mut buffer) == want,
            "read at {at}"
        );
        assert!(rt; &buffer[..] == &read[..], "read at {at}");
    }
    assert!(rt; (shelf.read_faults(), shelf.write_faults(), shelf.misses()) == (2, 0, 0));
    Ok(())
}

#[test]
fn starts_in_memory(rt: HostRuntime) -> Result<(), AllocError> {
    let mut shelf = shelf_of_two(rt.alloc())?;
    shelf.fail(Call::Start, 1)?;
    for (name, want) in [("line", Err(Failed)), ("out", Err(Failed)), ("out", Ok(()))] {
        assert!(rt; shelf.start(name) == want, "start of {name}");
    }
    assert!(rt; shelf.file("out") == Some(&b""[..]));
    assert!(rt; shelf.file("line") == Some(&b"abcdef"[..]));
    assert!(rt; shelf.file("none") == None);
    assert!(rt; (shelf.read_faults(), shelf.write_faults(), shelf.misses()) == (0, 2, 0));
    Ok(())
}

#[test]
fn appends_in_memory(rt: HostRuntime) -> Result<(), AllocError> {
    let mut shelf = shelf_of_two(rt.alloc())?;
    shelf.fail(Call::Append, 2)?;
    assert!(rt; shelf.start("out") == Ok(()));
    for (name, piece, want) in [
        ("line", "a", Err(Failed)),
        ("out", "abc", Ok(())),
        ("out", "d", Err(Failed)),
        ("out", "de", Err(Failed)),
        ("out", "d", Ok(())),
    ] {
        assert!(rt;
            shelf.append(name, piece.as_bytes()) == want,
            "{piece} to {name}"
        );
    }
    assert!(rt; shelf.file("out") == Some(&b"abcd"[..]));
    assert!(rt; shelf.file("line") == Some(&b"abcdef"[..]));
    assert!(rt; (shelf.read_faults(), shelf.write_faults(), shelf.misses()) == (0, 3, 0));
    Ok(())
}

#[test]
fn sink_in_memory(rt: HostRuntime) -> Result<(), AllocError> {
    let mut sink = MemSink::open(rt.alloc(), 5)?;
    sink.fail(1)?;
    for (piece, want) in [
        ("ab", Ok(())),
        ("c", Err(Failed)),
        ("cdef", Err(Failed)),
        ("cde", Ok(())),
    ] {
        assert!(rt; sink.write(piece.as_bytes()) == want, "{piece}");
    }
    assert!(rt; sink.written() == &b"abcde"[..]);
    assert!(rt; sink.faults() == 2);
    Ok(())
}

// A shelf that never fails, with two files.
fn never_failing(alloc: Global) -> Result<NeverFails, AllocError> {
    let names = vec![in alloc;
        String::from_str(alloc, "line")?,
        String::from_str(alloc, "script")?,
    ]?;
    let files = vec![in alloc; Vec::from_slice(alloc, b"abcdef")?, Vec::new(alloc)]?;
    NeverFails::open(alloc, &names, &files)
}

#[test]
fn files_that_never_fail(rt: HostRuntime) -> Result<(), AllocError> {
    let mut shelf = never_failing(rt.alloc())?;
    let (line, script, none) = (shelf.size("line"), shelf.size("script"), shelf.size("none"));
    let writes = [
        shelf.start("out"),
        shelf.append("out", b"1234"),
        Sink::write(&mut shelf, b"text"),
        shelf.append("line", b"56"),
    ];
    assert!(rt; writes == [Ok(()); 4]);
    let sizes = [line, script, none, shelf.size("line")];
    assert!(rt; sizes == [Ok(Some(6)), Ok(Some(0)), Ok(None), Ok(None)]);
    assert!(rt; shelf.taken() == 10);
    assert!(rt; (shelf.read_faults(), shelf.write_faults(), shelf.misses()) == (0, 0, 2));
    Ok(())
}
