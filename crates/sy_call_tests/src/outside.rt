use std::alloc::Global;
use std::test::Fail;
use sy_base::{List, Memory, Text};
use sy_outside::{
    Files, LineFault, LineReader, MemFiles, MemSink, MemSource, Named, Sink, Source, SureFiles,
    SureSink, SureSource, read_file, write_all,
};

/// The lines of these bytes, each followed by a bar, and what ends them.
fn barred(alloc: Global, bytes: &[u8], most: usize) -> Result<Vec<u8>, LineFault> {
    let mut reader = LineReader::new(alloc)?;
    let mut source = SureSource::new(Text::new(alloc, bytes)?, most.max(1));
    let mut out = Vec::new(alloc);
    for _ in 0..10_000 {
        if !reader.live() {
            break;
        }
        let Some(line) = reader.next(&mut source)? else {
            break;
        };
        out.extend_from_slice(line.bytes.bytes())?;
        out.push(b'|').map_err(|_| LineFault::Memory)?;
    }
    Ok(out)
}

#[test]
fn a_source_is_cut_into_lines(rt: HostRuntime) -> Result<(), Fail> {
    let table: [(&[u8], &[u8]); 6] = [
        (b"", b""),
        (b"\n", b"|"),
        (b"one", b"one|"),
        (b"one\n", b"one|"),
        (b"one\n\ntwo", b"one||two|"),
        (b"\n\nthree\n", b"||three|"),
    ];
    for (bytes, lines) in table {
        for most in [1, 2, 100_000] {
            assert_eq!(rt; barred(rt.alloc(), bytes, most)?.as_slice(), lines);
        }
    }
    let mut long = vec![in rt.alloc(); b'x'; 4096]?;
    assert!(rt; barred(rt.alloc(), &long, 7)?.len() == 4097);
    long.push(b'x')?;
    assert_eq!(rt;
        barred(rt.alloc(), &long, 7).err(),
        Some(LineFault::TooLong)
    );
    Ok(())
}

#[test]
fn a_file_is_read_whole(rt: HostRuntime) -> Result<(), Fail> {
    let name = Text::new(rt.alloc(), b"deed")?;
    let bytes = Text::from(vec![in rt.alloc(); b'x'; 70_000]?);
    let mut list = List::new(rt.alloc());
    list.push(Named {
        name: name.copy(rt.alloc())?,
        bytes,
    })?;
    let mut files = SureFiles::new(list);
    assert_eq!(rt;
        read_file(rt.alloc(), &mut files, &name)?.bytes().len(),
        70_000
    );
    Ok(())
}

/// Why the first of 5,000 bytes without a newline, read one by one, make no line, where one of the
/// reads fails.
fn long_line_fault(alloc: Global, failing: u64) -> Result<Option<LineFault>, Memory> {
    let bytes = Text::from(vec![in alloc; b'x'; 5_000]?);
    let mut source = MemSource::new(bytes, 1, only(alloc, failing)?);
    let mut reader = LineReader::new(alloc)?;
    Ok(reader.next(&mut source).err())
}

#[test]
fn a_long_line_is_refused_before_a_later_fault(rt: HostRuntime) -> Result<(), Fail> {
    let table = [
        (1, LineFault::ReadFault),
        (4_097, LineFault::ReadFault),
        (4_098, LineFault::TooLong),
        (4_500, LineFault::TooLong),
    ];
    for (failing, fault) in table {
        assert_eq!(rt; long_line_fault(rt.alloc(), failing)?, Some(fault));
    }
    Ok(())
}

#[test]
fn objects_in_memory_that_never_fail_go_on(rt: HostRuntime) -> Result<(), Fail> {
    let mut source = SureSource::new(Text::new(rt.alloc(), b"abcde")?, 2);
    let mut sink = SureSink::new(rt.alloc(), 3)?;
    let calls: [(usize, &[u8], &[u8]); 4] = [
        (2, b"a", b"a"),
        (2, b"", b"a"),
        (1, b"bcd", b"abc"),
        (0, b"e", b"abc"),
    ];
    let mut buf = [0; 4];
    for (given, piece, kept) in calls {
        assert_eq!(rt; source.read(&mut buf), Ok(given));
        assert_eq!(rt; sink.write(piece), Ok(piece.len()));
        assert_eq!(rt; sink.bytes(), kept);
    }
    assert!(rt; write_all(&mut sink, b"more").is_ok());
    assert_eq!(rt; sink.bytes(), b"abc".as_slice());
    Ok(())
}

#[test]
fn a_sink_takes_its_room_when_it_is_made(rt: HostRuntime) -> Result<(), Fail> {
    let mut sink = MemSink::new(rt.alloc(), 3, List::new(rt.alloc()))?;
    assert_eq!(rt; sink.write(b"kept"), Ok(3));
    assert_eq!(rt; sink.bytes(), b"kep".as_slice());
    Ok(())
}

/// A list of one number.
fn only(alloc: Global, number: u64) -> Result<List<u64>, Memory> {
    let mut list = List::new(alloc);
    list.push(number)?;
    Ok(list)
}

/// Files of which one has the name `deed` and three bytes.
fn deed_files(alloc: Global, failing: List<u64>) -> Result<MemFiles, Memory> {
    let mut files = List::new(alloc);
    files.push(Named {
        name: Text::new(alloc, b"deed")?,
        bytes: Text::new(alloc, b"abc")?,
    })?;
    Ok(MemFiles::new(files, failing))
}

#[test]
fn objects_in_memory_fail_as_planned(rt: HostRuntime) -> Result<(), Fail> {
    let alloc = rt.alloc();
    let mut source = MemSource::new(Text::new(alloc, b"abcde")?, 2, only(alloc, 2)?);
    let mut sink = MemSink::new(alloc, 3, only(alloc, 2)?)?;
    let mut files = deed_files(alloc, only(alloc, 2)?)?;
    let deed = Text::new(alloc, b"deed")?;
    let missing = Text::new(alloc, b"none")?;
    let calls: [(
        Option<usize>,
        &[u8],
        Option<usize>,
        &Text,
        u64,
        Option<usize>,
    ); 5] = [
        (Some(2), b"ab", Some(2), &deed, 0, Some(3)),
        (None, b"c", None, &deed, 0, None),
        (Some(2), b"cd", Some(1), &deed, 1, Some(2)),
        (Some(1), b"d", None, &missing, 0, None),
        (Some(0), b"", Some(0), &deed, 3, Some(0)),
    ];
    let mut buf = [0; 4];
    for (given, piece, taken, name, from, read) in calls {
        assert_eq!(rt; source.read(&mut buf).ok(), given);
        assert_eq!(rt; sink.write(piece).ok(), taken);
        assert_eq!(rt; files.read(name, from, &mut buf).ok(), read);
    }
    assert_eq!(rt; sink.bytes(), b"abc".as_slice());
    Ok(())
}
