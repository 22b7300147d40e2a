// Files, sinks, and whole reads and writes.
ghost use Rattle.std.specs.Prelude.{◌≡◌, ◌^◌, ◌<◌, None};

use cdl_source::{
    Failed, Files, HostFiles, HostSink, MemFiles, MemSink, OutOfMemory, ReadError, Text,
    read_whole, write_whole,
};
use std::alloc::Global;
use std::fs::File;
use std::test::Fail;
use std::{fs, io};

// Reads a file of seven bytes in pieces of at most so many, where the call of this number fails. It gives the text and the
// number of calls.
fn read_in_pieces(alloc: Global, most: usize, failing: u64) -> Result<(Text, u64), ReadError> {
    let mut files = MemFiles::new(alloc);
    files.put("a.txt", b"old")?;
    files.put("a.txt", b"one\ntwo")?;
    files.put("b.txt", b"other")?;
    files.piece(most.max(1));
    files.fail(failing)?;
    let text = read_whole(alloc, &mut files, "a.txt", 7)?;
    Ok((text, files.calls()))
}

// The text `time,y\n` on a sink that takes at most so many bytes at once and so many in all, where the write of this number
// fails: whether all was written, what stands there, and the number of writes.
fn write_in_pieces(
    alloc: Global,
    most: usize,
    room: usize,
    failing: u64,
) -> Result<(bool, Text, u64), OutOfMemory> {
    let mut sink = MemSink::new(alloc, most.max(1), room)?;
    sink.fail(failing)?;
    let done = write_whole(&mut sink, b"time,y\n").is_ok();
    Ok((done, Text::from_bytes(alloc, sink.bytes())?, sink.calls()))
}

// Two files, of which the second is absent.
fn two_reads<F: Files>(alloc: Global, files: &mut F) -> Result<Text, ReadError>
    requires room { F.begun files.old < 2 ^ 63 }
    requires none { F.due files.old ≡ None }
{
    let text = read_whole(alloc, files, "a.txt", 100)?;
    let _ = read_whole(alloc, files, "b.txt", 100)?;
    Ok(text)
}

#[test]
fn pieces_of_any_size_give_the_same_text(rt: HostRuntime) -> Result<(), Fail> {
    let alloc = rt.alloc();
    for (most, wanted) in [(1, 9), (7, 3), (4096, 3)] {
        let (text, calls) = read_in_pieces(alloc, most, 0)?;
        assert_eq!(rt; text.bytes(), b"one\ntwo".as_slice(), "pieces of {most}");
        assert_eq!(rt; calls, wanted, "pieces of {most}");
    }
    for k in 1..=9 {
        assert!(rt;
            matches!(read_in_pieces(alloc, 1, k), Err(ReadError::Failed)),
            "call {k}"
        );
    }
    for k in [0, 10] {
        assert!(rt; read_in_pieces(alloc, 1, k).is_ok(), "call {k}");
    }
    Ok(())
}

#[test]
fn files_in_memory_are_read_whole(rt: HostRuntime) -> Result<(), Fail> {
    let alloc = rt.alloc();
    let mut files = MemFiles::new(alloc);
    files.put("a.txt", b"one\ntwo")?;
    files.fail(2)?;
    assert!(rt;
        matches!(
            read_whole(alloc, &mut files, "a.txt", 7),
            Err(ReadError::Failed)
        )
    );
    let text = read_whole(alloc, &mut files, "a.txt", 7)?;
    assert_eq!(rt; text.bytes(), b"one\ntwo".as_slice());
    match read_whole(alloc, &mut files, "a.txt", 6) {
        Ok(_whole) => assert!(rt; false, "not refused"),
        Err(e) => match e {
            ReadError::TooLarge { head } => assert_eq!(rt; head.bytes(), b"one\ntw".as_slice()),
            ReadError::Failed | ReadError::OutOfMemory => assert!(rt; false, "not too large"),
        },
    }
    assert!(rt;
        matches!(
            read_whole(alloc, &mut files, "b.txt", 6),
            Err(ReadError::Failed)
        )
    );
    assert_eq!(rt; files.calls(), 2 + 3 + 2 + 1);
    Ok(())
}

#[test]
fn a_sink_takes_what_it_has_room_for(rt: HostRuntime) -> Result<(), Fail> {
    let alloc = rt.alloc();
    for (most, room, failing, wanted, left, writes) in [
        (4, 9, 0, true, 7, 2),
        (4, 7, 0, true, 7, 2),
        (4, 6, 0, false, 6, 3),
        (4, 0, 0, false, 0, 1),
        (1, 99, 0, true, 7, 7),
        (99, 99, 0, true, 7, 1),
        (4, 99, 1, false, 0, 1),
        (4, 99, 2, false, 4, 2),
        (4, 99, 3, true, 7, 2),
    ] {
        let (done, text, calls) = write_in_pieces(alloc, most, room, failing)?;
        assert_eq!(rt; done, wanted, "{most} of {room}, write {failing}");
        assert_eq!(rt;
            text.bytes(),
            b"time,y\n".get(..left).unwrap_or(&[]),
            "{most} of {room}, write {failing}"
        );
        assert_eq!(rt; calls, writes, "{most} of {room}, write {failing}");
    }
    Ok(())
}

#[test]
fn the_host_is_read_and_written(rt: HostRuntime) -> Result<(), Fail> {
    let alloc = rt.alloc();
    fs::write(&rt, "a.txt", "one\n")?;
    fs::create_dir(&rt, "folder")?;
    let mut files = HostFiles::new(&rt);
    let text = read_whole(alloc, &mut files, "a.txt", 100)?;
    assert_eq!(rt; text.bytes(), b"one\n".as_slice());
    assert!(rt;
        matches!(
            read_whole(alloc, &mut files, "folder", 100),
            Err(ReadError::Failed)
        )
    );
    assert!(rt; matches!(two_reads(alloc, &mut files), Err(ReadError::Failed)));
    let mut out = HostSink::new(io::writer(&rt));
    assert_eq!(rt; write_whole(&mut out, b"shown\n"), Ok(()));
    let mut kept = HostSink::new(File::create(&rt, "c.txt")?);
    assert_eq!(rt; write_whole(&mut kept, b"time,y\n"), Ok(()));
    assert_eq!(rt; fs::read_to_string(&rt, "c.txt")?.as_str(), "time,y\n");
    let mut full = [0u8; 2];
    let mut out = HostSink::new(full.as_mut_slice());
    assert_eq!(rt; write_whole(&mut out, b"shown\n"), Err(Failed));
    Ok(())
}
