use outside::{
    Failed, FileFault, Files, HostFiles, HostSink, HostSource, MemFiles, MemSink, MemSource, Sink,
    Source, decimal, put_all,
};
use std::alloc::{AllocError, Global};
use std::process::Abort;
use std::test::Fail;
use std::{fs, io};

fn assert_reads<F: Files>(rt: &impl Abort, files: &mut F, name: &str, most: usize, want: &[u8]) {
    match files.read(name, most) {
        Ok(bytes) => assert_eq!(rt; bytes.as_slice(), want, "at {name} up to {most}"),
        Err(fault) => panic!(rt; "{fault} at {name} up to {most}"),
    }
}

fn assert_read_fails<F: Files>(rt: &impl Abort, files: &mut F, name: &str) {
    assert_eq!(rt;
        files.read(name, 9).err(),
        Some(FileFault::Failed),
        "at {name}"
    );
}

fn assert_replaces<F: Files>(
    rt: &impl Abort,
    files: &mut F,
    name: &str,
    bytes: &[u8],
    want: Result<(), FileFault>,
) {
    assert_eq!(rt; files.replace(name, bytes), want, "at {name}");
}

fn assert_held(rt: &impl Abort, files: &MemFiles, name: &str, want: Option<&[u8]>) {
    assert_eq!(rt; files.held(name), want, "at {name}");
}

// Two files, `in` and `old`.
fn two_files(alloc: Global, failing: &[u64]) -> Result<MemFiles, AllocError> {
    let mut files = Vec::new(alloc);
    files.push((String::from_str(alloc, "in")?, b"abcd".to_vec(alloc)?))?;
    files.push((String::from_str(alloc, "old")?, b"e".to_vec(alloc)?))?;
    Ok(MemFiles::of(alloc, files, failing.to_vec(alloc)?))
}

#[test]
fn files_in_memory_are_read_and_replaced(rt: HostRuntime) -> Result<(), Fail> {
    let mut files = two_files(rt.alloc(), &[])?;
    assert_reads(&rt, &mut files, "in", 2, b"ab");
    assert_reads(&rt, &mut files, "in", 9, b"abcd");
    assert_replaces(&rt, &mut files, "old", b"fg", Ok(()));
    assert_replaces(&rt, &mut files, "new", b"", Ok(()));
    assert_held(&rt, &files, "old", Some(b"fg"));
    assert_held(&rt, &files, "new", Some(b""));
    assert_held(&rt, &files, "in", Some(b"abcd"));
    assert_held(&rt, &files, "none", None);
    assert_read_fails(&rt, &mut files, "none");
    Ok(())
}

#[test]
fn files_in_memory_fail_at_the_stated_calls_alone(rt: HostRuntime) -> Result<(), Fail> {
    let mut files = two_files(rt.alloc(), &[2, 3])?;
    assert_reads(&rt, &mut files, "in", 9, b"abcd");
    assert_replaces(&rt, &mut files, "in", b"x", Err(FileFault::Failed));
    assert_read_fails(&rt, &mut files, "in");
    assert_reads(&rt, &mut files, "in", 9, b"abcd");
    assert_replaces(&rt, &mut files, "in", b"x", Ok(()));
    assert_held(&rt, &files, "in", Some(b"x"));
    Ok(())
}

#[test]
fn a_source_in_memory_goes_on_after_a_fault(rt: HostRuntime) -> Result<(), Fail> {
    let alloc = rt.alloc();
    let mut source = MemSource::of(b"hello".to_vec(alloc)?, [2].to_vec(alloc)?);
    let mut into = [0; 3];
    assert_eq!(rt; source.take(&mut into), Ok(3));
    assert_eq!(rt; into.as_slice(), b"hel".as_slice());
    assert_eq!(rt; source.take(&mut into), Err(Failed));
    assert_eq!(rt; source.left(), b"lo".as_slice());
    assert_eq!(rt; source.take(&mut into), Ok(2));
    assert_eq!(rt; into.as_slice(), b"lol".as_slice());
    assert_eq!(rt; source.take(&mut into), Ok(0));
    Ok(())
}

#[test]
fn a_sink_in_memory_fails_at_stated_calls_and_when_full(rt: HostRuntime) -> Result<(), Fail> {
    let alloc = rt.alloc();
    let mut sink = MemSink::of(alloc, 4, [2].to_vec(alloc)?)?;
    assert_eq!(rt; sink.put(b"ab"), Ok(2));
    assert_eq!(rt; sink.put(b"cde"), Err(Failed));
    assert_eq!(rt; sink.put(b"cde"), Ok(2));
    assert_eq!(rt; sink.put(b"e"), Err(Failed));
    assert_eq!(rt; sink.put(b""), Ok(0));
    assert_eq!(rt; sink.shown(), b"abcd".as_slice());
    Ok(())
}

#[test]
fn put_all_puts_all_or_a_prefix(rt: HostRuntime) -> Result<(), Fail> {
    let alloc = rt.alloc();
    for (room, failing, result, shown) in [
        (9, 9, Ok(()), b"hello".as_slice()),
        (5, 9, Ok(()), b"hello".as_slice()),
        (3, 9, Err(Failed), b"hel".as_slice()),
        (9, 1, Err(Failed), b"".as_slice()),
    ] {
        let mut sink = MemSink::of(alloc, room, [failing].to_vec(alloc)?)?;
        assert_eq!(rt;
            put_all(&mut sink, b"hello"),
            result,
            "room {room}, failing {failing}"
        );
        assert_eq!(rt; sink.shown(), shown, "room {room}, failing {failing}");
    }
    Ok(())
}

#[test]
fn decimal_reads_canonical_numbers(rt: HostRuntime) {
    for (text, most, number) in [
        ("0", 0, Some(0)),
        ("7", 7, Some(7)),
        ("8", 7, None),
        ("1000000", 1000000, Some(1000000)),
        ("18446744073709551615", u64::MAX, Some(u64::MAX)),
        ("18446744073709551616", u64::MAX, None),
        ("01", 9, None),
        ("00", 9, None),
        ("", 9, None),
        ("+1", 9, None),
        ("-1", 9, None),
        ("1 ", 9, None),
        ("1a", 99, None),
    ] {
        assert_eq!(rt;
            decimal(text.as_bytes(), most),
            number,
            "{text} up to {most}"
        );
    }
    assert_eq!(rt; decimal(b"1\xff", 9), None);
}

#[test]
fn host_adapters_over_real_files(rt: HostRuntime) -> Result<(), Fail> {
    let alloc = rt.alloc();
    let mut long = Vec::new(alloc);
    long.resize(5000, b'x')?;
    let mut files = HostFiles::fresh(alloc, &rt);
    assert_replaces(&rt, &mut files, "adapters.bin", &long, Ok(()));
    assert_reads(&rt, &mut files, "adapters.bin", usize::MAX, &long);
    assert_replaces(&rt, &mut files, "adapters.bin", b"hello", Ok(()));
    assert_reads(&rt, &mut files, "adapters.bin", 4, b"hell");
    assert_reads(&rt, &mut files, "adapters.bin", 9, b"hello");
    assert_read_fails(&rt, &mut files, "absent.bin");
    assert_replaces(
        &rt,
        &mut files,
        "absent/new.bin",
        b"x",
        Err(FileFault::Failed),
    );

    // A folder is opened, and then its read fails; this device is opened, and then its write fails.
    assert_read_fails(&rt, &mut files, ".");
    assert_replaces(&rt, &mut files, "/dev/full", b"x", Err(FileFault::Failed));

    assert_puts(&rt, HostSink::of(fs::create(&rt, "adapters.bin")?), b"abc");
    assert_takes(&rt, HostSource::of(fs::open(&rt, "adapters.bin")?), b"abc");
    Ok(fs::remove_file(&rt, "adapters.bin")?)
}

fn assert_puts<S: Sink + Drop>(rt: &impl Abort, mut sink: S, bytes: &[u8]) {
    assert_eq!(rt; put_all(&mut sink, bytes), Ok(()));
}

// Takes all that the source has, fewer than nine bytes, in one call.
fn assert_takes<S: Source + Drop>(rt: &impl Abort, mut source: S, want: &[u8]) {
    let mut into = [0; 9];
    assert_eq!(rt; source.take(&mut into), Ok(want.len()));
    assert_eq!(rt; into.get(..want.len()), Some(want));
    assert_eq!(rt; source.take(&mut into), Ok(0));
}

// A stream that serves its first call in part, and fails from then on.
#[derive(Drop)]
struct Breaking {
    calls: u8,
}

impl io::Read for Breaking {
    fn read(&mut self, into: &mut [u8]) -> io::Result<usize> {
        self.calls = self.calls.saturating_add(1);
        if self.calls > 1 || into.is_empty() {
            return Err(io::Error::from(io::ErrorKind::TimedOut));
        }
        into[0] = b'a';
        Ok(1)
    }
}

// The second call writes none of its bytes.
impl io::Write for Breaking {
    fn write(&mut self, bytes: &[u8]) -> io::Result<usize> {
        self.calls = self.calls.saturating_add(1);
        if self.calls > 2 {
            return Err(io::Error::from(io::ErrorKind::TimedOut));
        }
        if self.calls == 2 || bytes.is_empty() {
            return Ok(0);
        }
        Ok(1)
    }

    fn flush(&mut self) -> io::Result<()> {
        Ok(())
    }
}

#[test]
fn host_streams_fail_in_mid_stream(rt: HostRuntime) {
    let mut source = HostSource::of(Breaking { calls: 0 });
    let mut into = [0; 2];
    assert_eq!(rt; source.take(&mut into), Ok(1));
    assert_eq!(rt; source.take(&mut into), Err(Failed));

    let mut sink = HostSink::of(Breaking { calls: 0 });
    assert_eq!(rt; sink.put(b"ab"), Ok(1));
    assert_eq!(rt;
        sink.put(b"b"),
        Err(Failed),
        "none of the bytes were written"
    );
    assert_eq!(rt; sink.put(b"b"), Err(Failed));
    assert_eq!(rt;
        put_all(&mut HostSink::of(Breaking { calls: 0 }), b"ab"),
        Err(Failed)
    );
}
