//! Lists of bits, files and sinks, in memory and for real.

use jt_base::{
    Bits, DiskFiles, FileFault, Files, MemoryFile, MemoryFiles, MemorySink, Sink, SinkFault,
    StdSink, read_whole,
};
use std::alloc::{AllocError, Global};
use std::cell::RefCell;
use std::fmt::Display;
use std::rt::HostRuntime;
use std::test::Fail;
use std::{fs, io, process};

#[test]
fn bits_spell_numbers(rt: HostRuntime) {
    let cases = [
        (u64::MAX, 0, 0),
        (2, 1, 0),
        (3, 1, 1),
        (0xfedc_ba98_7654_3210, 41, 0x0098_7654_3210),
        (0xfedc_ba98_7654_3210, 64, 0xfedc_ba98_7654_3210),
    ];
    for (value, len, number) in cases {
        assert!(rt; len <= 64);
        let bits = Bits::from_u64(value, len);
        assert_eq!(rt;
            (bits.value(), bits.len()),
            (number, len),
            "{len} bits of {value:#x}"
        );
        let mut rest = bits;
        let mut again = Bits::new();
        for at in 0..len {
            assert!(rt; at < bits.len() && again.len() < 64);
            assert_eq!(rt; rest.pop(), Some(bits.bit(at)), "bit {at} of {value:#x}");
            again.push(bits.bit(at));
        }
        assert_eq!(rt;
            (rest.is_empty(), again),
            (true, bits),
            "{len} bits of {value:#x}"
        );
    }
}

#[test]
fn bits_leave_lowest_first(rt: HostRuntime) {
    let mut bits = Bits::from_u64(0b1101, 4);
    assert_eq!(rt;
        (bits.lowest(), bits.bit(0), bits.bit(1), bits.bit(3)),
        (true, true, false, true)
    );
    bits.shift_in(false);
    assert_eq!(rt;
        (bits.value(), bits.len(), bits.lowest()),
        (0b0110, 4, false)
    );
    assert_eq!(rt;
        (bits.pop(), bits.value(), bits.len()),
        (Some(false), 0b011, 3)
    );
    let mut none = Bits::default();
    none.shift_in(true);
    assert_eq!(rt;
        (none, none.lowest(), none.pop()),
        (Bits::new(), false, None)
    );
}

// Reads through the bound.
fn read_of<F: Files>(
    mut files: F,
    rt: &HostRuntime,
    name: &str,
    limit: usize,
) -> (Result<Vec<u8>, FileFault>, u64) {
    let outcome = files.read(rt.alloc(), name, limit);
    let faults = files.faults();
    (outcome, faults)
}

fn file(rt: &HostRuntime, name: &str, content: &[u8]) -> Result<MemoryFile, Fail> {
    let name = String::from_str(rt.alloc(), name)?;
    Ok(MemoryFile::new(name, content.to_vec(rt.alloc())?))
}

#[test]
fn memory_files_fail_where_listed_or_missing(rt: HostRuntime) -> Result<(), Fail> {
    let held = vec![in rt.alloc();
        file(&rt, "a", b"abc")?,
        file(&rt, "b", b"")?,
        file(&rt, "a", b"other")?,
    ]?;
    let mut files = MemoryFiles::new(rt.alloc(), held, vec![in rt.alloc(); 2, 9]?);
    let cases = [
        ("a", 3, Ok(b"abc".as_slice()), 0),
        ("a", 2, Err(FileFault::TooLong), 0),
        ("a", 3, Err(FileFault::Failed), 1),
        ("none", 3, Err(FileFault::Failed), 2),
        ("b", 0, Ok(b"".as_slice()), 2),
    ];
    for (name, limit, want, faults) in cases {
        let (outcome, count) = read_of(&mut files, &rt, name, limit);
        let outcome = match &outcome {
            Ok(bytes) => Ok(bytes.as_slice()),
            Err(fault) => Err(*fault),
        };
        assert_eq!(rt; (outcome, count), (want, faults), "{name} {limit}");
    }
    Ok(())
}

// Puts through the bound.
fn put_into<K: Sink>(mut sink: K, bytes: &[u8]) -> (Result<(), SinkFault>, u64) {
    let outcome = sink.put(bytes);
    let faults = sink.faults();
    (outcome, faults)
}

#[test]
fn memory_sink_fails_where_listed_or_full(rt: HostRuntime) -> Result<(), Fail> {
    let mut sink = MemorySink::new(rt.alloc(), 5, vec![in rt.alloc(); 1]?)?;
    let failed = Err(SinkFault::Failed);
    let cases = [
        (b"ab".as_slice(), Ok(()), b"ab".as_slice(), 0),
        (b"c".as_slice(), failed, b"ab".as_slice(), 1),
        (b"cde".as_slice(), Ok(()), b"abcde".as_slice(), 1),
        (b"".as_slice(), Ok(()), b"abcde".as_slice(), 1),
        (b"f".as_slice(), failed, b"abcde".as_slice(), 2),
    ];
    for (bytes, want, whole, faults) in cases {
        let outcome = put_into(&mut sink, bytes);
        assert_eq!(rt;
            (outcome, sink.bytes()),
            ((want, faults), whole),
            "{bytes:?}"
        );
    }
    let mut short = MemorySink::new(rt.alloc(), 3, Vec::new(rt.alloc()))?;
    assert_eq!(rt;
        (short.put(b"abcd"), short.bytes()),
        (failed, b"abc".as_slice())
    );
    Ok(())
}

// So many bytes, which differ by their places.
fn numbered(alloc: Global, count: u32) -> Result<Vec<u8>, AllocError> {
    let mut bytes = Vec::new(alloc);
    for place in 0..count {
        bytes.push((place % 251) as u8)?;
    }
    Ok(bytes)
}

// A reader that counts down, a byte at a time, and then ends or fails.
#[derive(Drop)]
struct Countdown {
    left: u8,
    fails: bool,
}

impl io::Read for Countdown {
    fn read(&mut self, buf: &mut [u8]) -> io::Result<usize> {
        if self.left == 0 {
            return if self.fails {
                Err(io::Error::from(io::ErrorKind::ConnectionReset))
            } else {
                Ok(0)
            };
        }
        let [first, ..] = buf else {
            return Ok(0);
        };
        *first = self.left;
        self.left -= 1;
        Ok(1)
    }
}

#[test]
fn reads_whole_or_fails(rt: HostRuntime) {
    let cases = [
        (false, 5, Ok([5, 4, 3, 2, 1].as_slice())),
        (false, 4, Err(FileFault::TooLong)),
        (true, 5, Err(FileFault::Failed)),
    ];
    for (fails, limit, want) in cases {
        let outcome = read_whole(Countdown { left: 5, fails }, rt.alloc(), limit);
        let outcome = match &outcome {
            Ok(bytes) => Ok(bytes.as_slice()),
            Err(fault) => Err(*fault),
        };
        assert!(rt; outcome == want, "{fails} {limit}");
    }
}

#[test]
fn disk_files_read_what_was_written(rt: HostRuntime) -> Result<(), Fail> {
    let alloc = rt.alloc();
    let path = format!(in alloc; "/tmp/jt_base_{}", process::id(rt.process()))?;
    let content = numbered(alloc, 5000)?;
    fs::write(&rt, path.as_str(), content.as_slice())?;
    let mut files = DiskFiles::new(&rt);
    let (whole, _) = read_of(&mut files, &rt, path.as_str(), 5000);
    let (cut, faults) = read_of(&mut files, &rt, path.as_str(), 4999);
    fs::remove_file(&rt, path.as_str())?;
    assert!(rt; whole? == content);
    assert_eq!(rt; (cut.err(), faults), (Some(FileFault::TooLong), 0));
    let (missing, faults) = read_of(&mut files, &rt, path.as_str(), 5000);
    assert_eq!(rt; (missing.err(), faults), (Some(FileFault::Failed), 1));
    let (endless, faults) = read_of(&mut files, &rt, "/dev/zero", 5000);
    assert_eq!(rt; (endless.err(), faults), (Some(FileFault::TooLong), 1));
    let (folder, faults) = read_of(&mut files, &rt, "/tmp", 5000);
    assert_eq!(rt; (folder.err(), faults), (Some(FileFault::Failed), 2));
    Ok(())
}

// An output that takes this many bytes at a write and has room for so many.
#[derive(Drop)]
struct Output {
    step: usize,
    room: usize,
    taken: RefCell<Vec<u8>>,
}

impl Output {
    fn new(alloc: Global, step: usize, room: usize) -> Output {
        let taken = RefCell::new(Vec::new(alloc));
        Output { step, room, taken }
    }

    // Whether these bytes were taken.
    fn has(&self, bytes: &[u8]) -> bool {
        match self.taken.try_borrow() {
            Ok(taken) => taken.as_slice() == bytes,
            Err(_) => false,
        }
    }
}

impl Print for Output {
    fn print<D: Display + Drop>(&self, _value: D) -> io::Result<()> {
        Ok(())
    }

    fn println<D: Display + Drop>(&self, _value: D) -> io::Result<()> {
        Ok(())
    }

    fn write_all(&self, _bytes: &[u8]) -> io::Result<()> {
        Ok(())
    }

    fn write_some(&self, bytes: &[u8]) -> io::Result<usize> {
        let Ok(mut taken) = self.taken.try_borrow_mut() else {
            return Ok(0);
        };
        let left = self.room.saturating_sub(taken.len());
        if left == 0 {
            return Err(io::Error::from(io::ErrorKind::BrokenPipe));
        }
        let count = bytes.len().min(self.step).min(left);
        taken.extend_from_slice(&bytes[..count])?;
        Ok(count)
    }
}

#[test]
fn std_sink_writes_or_counts(rt: HostRuntime) {
    let mut out = StdSink::new(&rt);
    assert_eq!(rt; put_into(&mut out, b""), (Ok(()), 0));
    assert_eq!(rt; put_into(&mut out, b"a line\n"), (Ok(()), 0));
    let slow = Output::new(rt.alloc(), 2, 6);
    let mut sink = StdSink::new(&slow);
    let failed = Err(SinkFault::Failed);
    assert_eq!(rt;
        (put_into(&mut sink, b"abcde"), slow.has(b"abcde")),
        ((Ok(()), 0), true)
    );
    assert_eq!(rt;
        (put_into(&mut sink, b"fgh"), slow.has(b"abcdef")),
        ((failed, 1), true)
    );
    assert_eq!(rt;
        (put_into(&mut sink, b""), slow.has(b"abcdef")),
        ((Ok(()), 1), true)
    );
    let clogged = Output::new(rt.alloc(), 0, 6);
    assert_eq!(rt;
        (put_into(StdSink::new(&clogged), b"x"), clogged.has(b"")),
        ((failed, 1), true)
    );
}
