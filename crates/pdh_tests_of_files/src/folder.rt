//! The real devices: files of a folder, whatever stands under their names, and the standard output.

use pdh_edge::{Failed, Shelf, Sink};
use pdh_folder::{Folder, Out};
use std::alloc::Global;
use std::fs::Files;
use std::os::unix::fs::symlink;
use std::process::Abort;
use std::{fs, io};

// Writes a file in a folder, twice anew, and then more to it.
fn write_file<R: Files + Drop>(rt: &impl Abort, folder: &mut Folder<R>, name: &str) {
    for piece in ["wrong", "right"] {
        assert!(rt; folder.start(name) == Ok(()));
        assert!(rt; folder.append(name, piece.as_bytes()) == Ok(()));
    }
    assert!(rt; folder.append(name, b" end") == Ok(()));
    assert!(rt; folder.size(name) == Ok(Some(9)));
}

// Reads parts of that file: one behind the other, back and forth, past the file's end, and from the
// same place again.
fn read_file<R: Files + Drop>(rt: &impl Abort, folder: &mut Folder<R>, name: &str) {
    let mut four = [b'-'; 4];
    for _twice in 0..2 {
        assert!(rt; folder.read_at(name, 0, &mut four) == Ok(()));
        assert!(rt; &four[..] == &b"righ"[..]);
    }
    let mut buffer = [b'-'; 5];
    for (at, found) in [(4, b"t end"), (3, b"ht en"), (0, b"right")] {
        assert!(rt; folder.read_at(name, at, &mut buffer) == Ok(()));
        assert!(rt; &buffer[..] == &found[..]);
    }
    assert!(rt; folder.read_at(name, 5, &mut buffer) == Err(Failed));
    assert!(rt; folder.read_at(name, 5, &mut four) == Ok(()));
    assert!(rt; &four[..] == &b" end"[..]);
}

// What a folder does with one file.
fn use_file<R: Files + Drop>(rt: &impl Abort, mut folder: Folder<R>, name: &str, below: &str) {
    assert!(rt; folder.size(name) == Ok(None));
    assert!(rt; folder.append(name, b"ab") == Err(Failed));
    write_file(rt, &mut folder, name);
    // A name below a file isn't a file that is missing.
    assert!(rt; folder.size(below) == Err(Failed));
    read_file(rt, &mut folder, name);
    assert!(rt; (folder.read_faults(), folder.write_faults(), folder.misses()) == (2, 1, 1));
}

#[test]
fn folder_of_a_file_that_stays_open(rt: HostRuntime) -> io::Result<()> {
    use_file(
        &rt,
        Folder::new(rt.alloc(), rt.clone()?),
        "pf_file",
        "pf_file/below",
    );
    fs::remove_file(&rt, "pf_file")
}

#[test]
fn folder_of_a_file_with_a_long_name(rt: HostRuntime) -> io::Result<()> {
    use_file(
        &rt,
        Folder::new(rt.alloc(), rt.clone()?),
        "pf_file_of_a_name_that_does_not_stay_open",
        "pf_file_of_a_name_that_does_not_stay_open/below",
    );
    fs::remove_file(&rt, "pf_file_of_a_name_that_does_not_stay_open")
}

// A folder in which a file of this name was written.
fn folder_with<R: Files + Drop>(
    rt: &impl Abort,
    alloc: Global,
    files: R,
    name: &str,
    bytes: &[u8],
) -> Folder<R> {
    let mut folder = Folder::new(alloc, files);
    assert!(rt; folder.start(name) == Ok(()));
    assert!(rt; folder.append(name, bytes) == Ok(()));
    folder
}

// Looks whether a file has these six bytes.
fn has_bytes<R: Files + Drop>(rt: &impl Abort, folder: &mut Folder<R>, name: &str, bytes: &[u8]) {
    let mut six = [b'-'; 6];
    assert!(rt; folder.size(name) == Ok(Some(6)));
    assert!(rt; folder.read_at(name, 0, &mut six) == Ok(()));
    assert!(rt; &six[..] == bytes);
}

#[test]
fn links_to_what_is_read(rt: HostRuntime) -> io::Result<()> {
    let mut folder = folder_with(&rt, rt.alloc(), rt.clone()?, "pf_line", b"abcdef");
    fs::hard_link(&rt, "pf_line", "pf_hard")?;
    symlink(&rt, "pf_line", "pf_soft")?;
    has_bytes(&rt, &mut folder, "pf_line", b"abcdef");
    assert!(rt; folder.start("pf_hard") == Err(Failed));
    assert!(rt; folder.start("pf_soft") == Err(Failed));
    has_bytes(&rt, &mut folder, "pf_line", b"abcdef");
    let mut other = Folder::new(rt.alloc(), rt.clone()?);
    has_bytes(&rt, &mut other, "pf_soft", b"abcdef");
    assert!(rt; other.start("pf_line") == Err(Failed));
    has_bytes(&rt, &mut other, "pf_soft", b"abcdef");
    assert!(rt; (folder.write_faults(), other.write_faults()) == (2, 1));
    for name in ["pf_line", "pf_hard", "pf_soft"] {
        fs::remove_file(&rt, name)?;
    }
    Ok(())
}

#[test]
fn other_names_keep_their_bytes(rt: HostRuntime) -> io::Result<()> {
    let mut folder = folder_with(&rt, rt.alloc(), rt.clone()?, "pf_old", b"abcdef");
    fs::hard_link(&rt, "pf_old", "pf_kept")?;
    symlink(&rt, "pf_kept", "pf_link")?;
    symlink(&rt, "pf_nowhere", "pf_bare")?;
    for name in ["pf_old", "pf_link", "pf_bare"] {
        assert!(rt; folder.start(name) == Ok(()), "start of {name}");
        assert!(rt;
            folder.append(name, b"ghijkl") == Ok(()),
            "append to {name}"
        );
    }
    let mut other = Folder::new(rt.alloc(), rt.clone()?);
    has_bytes(&rt, &mut other, "pf_kept", b"abcdef");
    for name in ["pf_old", "pf_link", "pf_bare"] {
        has_bytes(&rt, &mut other, name, b"ghijkl");
        fs::remove_file(&rt, name)?;
    }
    assert!(rt; other.size("pf_nowhere") == Ok(None));
    fs::remove_file(&rt, "pf_kept")
}

#[test]
fn what_is_no_file(rt: HostRuntime) -> io::Result<()> {
    let mut folder = Folder::new(rt.alloc(), rt.clone()?);
    fs::create_dir(&rt, "pf_dir")?;
    symlink(&rt, "/dev/null", "pf_null")?;
    for name in ["pf_dir", "/dev/null", "pf_null"] {
        assert!(rt; folder.size(name) == Err(Failed), "size of {name}");
        assert!(rt; folder.start(name) == Err(Failed), "start of {name}");
    }
    assert!(rt; (folder.read_faults(), folder.write_faults()) == (3, 3));
    fs::remove_dir(&rt, "pf_dir")?;
    fs::remove_file(&rt, "pf_null")
}

#[test]
fn a_name_beside_is_taken(rt: HostRuntime) -> io::Result<()> {
    let mut folder = folder_with(&rt, rt.alloc(), rt.clone()?, "pf_two", b"abcdef");
    let mut left = folder_with(&rt, rt.alloc(), rt.clone()?, "pf_two.new", b"remain");
    assert!(rt; folder.start("pf_two") == Ok(()));
    assert!(rt; folder.size("pf_two") == Ok(Some(0)));
    has_bytes(&rt, &mut left, "pf_two.new", b"remain");
    assert!(rt; folder.size("pf_two.new1") == Ok(None));
    fs::remove_file(&rt, "pf_two")?;
    fs::remove_file(&rt, "pf_two.new")
}

#[test]
fn standard_output(rt: HostRuntime) -> io::Result<()> {
    let mut out = Out::new(rt.clone()?);
    assert!(rt; out.write(b"written\n") == Ok(()));
    assert!(rt; out.faults() == 0);
    Ok(())
}
