//! Tests of files and printers that fail on request, behind the devices of the program.

use cc_filedev::{FilePlace, Output, ScriptFile};
use cc_traits::{Sink, Source, Stop};
use std::cell::Cell;
use std::fmt::Display;
use std::io;
use std::io::{Error, ErrorKind, Print, Read};

const TEXT: &str = "stream a 8192 6144\nisdirty\n";

/// A file that gives at most `chunk` bytes a read, and fails after so many reads.
#[derive(Drop)]
struct TestFile {
    left: &'static [u8],
    chunk: usize,
    reads: u32,
}

impl Read for TestFile {
    fn read(&mut self, buf: &mut [u8]) -> io::Result<usize> {
        if self.reads == 0 {
            return Err(Error::from(ErrorKind::Other));
        }
        self.reads -= 1;
        let n = self.chunk.min(buf.len()).min(self.left.len());
        buf[..n].copy_from_slice(&self.left[..n]);
        self.left = &self.left[n..];
        Ok(n)
    }
}

/// A place of such a file, or one where there is none.
#[derive(Drop)]
struct TestPlace {
    text: Option<&'static str>,
    chunk: usize,
    reads: u32,
}

impl FilePlace for TestPlace {
    type File = TestFile;

    fn open(&self) -> io::Result<TestFile> {
        match self.text {
            Some(text) => Ok(TestFile {
                left: text.as_bytes(),
                chunk: self.chunk,
                reads: self.reads,
            }),
            None => Err(Error::from(ErrorKind::NotFound)),
        }
    }
}

/// Whether a source gives these bytes up to its end.
fn gives<S: Source>(source: &mut S, wanted: &[u8]) -> Result<bool, Stop> {
    let mut buf = [0; 16];
    let mut wanted = wanted;
    for _ in 0..99u32 {
        let n = source.take(&mut buf)?;
        if n == 0 {
            return Ok(wanted.is_empty());
        }
        if !wanted.starts_with(&buf[..n]) {
            return Ok(false);
        }
        wanted = &wanted[n..];
    }
    Ok(false)
}

// A missing file is no empty one, and a read that fails is not the end.
#[test]
fn files_give_their_bytes_or_fail(rt: HostRuntime) {
    for (text, chunk, reads, wanted) in [
        (None, 16, 9, Err(Stop::Failed)),
        (Some(TEXT), 16, 0, Err(Stop::Failed)),
        (Some(TEXT), 16, 1, Err(Stop::Failed)),
        (Some(TEXT), 99, 2, Err(Stop::Failed)),
        (Some(TEXT), 7, 99, Ok(true)),
        (Some(""), 16, 9, Ok(true)),
    ] {
        let mut source = ScriptFile::new(TestPlace { text, chunk, reads });
        let given = gives(&mut source, text.unwrap_or("").as_bytes());
        assert!(rt; given == wanted, "{chunk} {reads}");
    }
}

/// A printer that takes at most `most` bytes a call and fails after so many calls. It keeps how far what it
/// was given is the text.
#[derive(Drop)]
struct TestPrinter {
    most: usize,
    calls: Cell<u32>,
    printed: Cell<usize>,
}

impl Print for TestPrinter {
    fn print<D: Display + Drop>(&self, _value: D) -> io::Result<()> {
        Err(Error::from(ErrorKind::Unsupported))
    }

    fn println<D: Display + Drop>(&self, _value: D) -> io::Result<()> {
        Err(Error::from(ErrorKind::Unsupported))
    }

    fn write_all(&self, _bytes: &[u8]) -> io::Result<()> {
        Err(Error::from(ErrorKind::Unsupported))
    }

    fn write_some(&self, bytes: &[u8]) -> io::Result<usize> {
        let calls = self.calls.get();
        if calls == 0 {
            return Err(Error::from(ErrorKind::Other));
        }
        self.calls.set(calls - 1);
        let n = bytes.len().min(self.most);
        let printed = self.printed.get();
        if printed <= TEXT.len() && TEXT.as_bytes()[printed..].starts_with(&bytes[..n]) {
            self.printed.set(printed.saturating_add(n));
        }
        Ok(n)
    }
}

/// Puts all of these bytes into a sink.
fn put_all<K: Sink>(sink: &mut K, bytes: &[u8]) -> Result<(), Stop> {
    let mut left = bytes;
    for _ in 0..99u32 {
        if left.is_empty() {
            return Ok(());
        }
        let n = sink.put(left)?;
        left = &left[n..];
    }
    Ok(())
}

// A write that fails or takes nothing prints nothing, and one that is short is followed by the rest.
#[test]
fn printers_print_their_bytes_or_fail(rt: HostRuntime) {
    for (most, calls, wanted, printed) in [
        (4096, 0, Err(Stop::Failed), 0),
        (7, 2, Err(Stop::Failed), 14),
        (0, 9, Err(Stop::Failed), 0),
        (7, 99, Ok(()), TEXT.len()),
        (4096, 1, Ok(()), TEXT.len()),
    ] {
        let printer = TestPrinter {
            most,
            calls: Cell::new(calls),
            printed: Cell::new(0),
        };
        let put = put_all(&mut Output::new(&printer), TEXT.as_bytes());
        assert!(rt;
            put == wanted && printer.printed.get() == printed,
            "{most} {calls}"
        );
    }
}
