//! A runtime whose files and streams record what comes, and fail in mid-stream.
use super::asking::{AskKind, told};
use crate::{LocalHost, Locks, Streams};
use std::alloc::Allocator;
use std::cell::Cell;
use std::fs::{Files, Metadata, OpenFile, OpenOptions};
use std::io;
use std::io::{ErrorKind, Read, Seek, SeekFrom, Write};
use std::process::{Child, Command, Processes, Stdio, SystemProcess};
use std::rc::Rc;
use std::test::Fail;

/// What came, in order: each write as the mark of its stream and the bytes, each flush as `|`, each wait for the disk as `.`, and each move as `~`.
#[derive(Drop)]
struct Record {
    bytes: Cell<[u8; 64]>,
    count: Cell<usize>,
    /// How many more writes, reads, waits and moves succeed.
    left: Cell<u32>,
}

impl Record {
    fn note(&self, byte: u8) {
        let mut bytes = self.bytes.get();
        let count = self.count.get();
        if count < bytes.len() {
            bytes[count] = byte;
            self.bytes.set(bytes);
            self.count.set(count + 1);
        }
    }

    /// Whether one more of them succeeds.
    fn serves(&self) -> bool {
        let left = self.left.get();
        if left > 0 {
            self.left.set(left - 1);
        }
        left > 0
    }
}

/// A stream or a file. It takes and gives two bytes at most.
#[derive(Drop)]
struct Tap {
    record: Option<Rc<Record>>,
    mark: u8,
}

impl Tap {
    fn note(&self, byte: u8) {
        if let Some(record) = &self.record {
            record.note(byte);
        }
    }

    fn serves(&self) -> bool {
        match &self.record {
            Some(record) => record.serves(),
            None => false,
        }
    }
}

impl Write for Tap {
    fn write(&mut self, buf: &[u8]) -> io::Result<usize> {
        if !self.serves() {
            return Err(io::Error::from(ErrorKind::StorageFull));
        }
        self.note(self.mark);
        let count = buf.len().min(2);
        for byte in &buf[..count] {
            self.note(*byte);
        }
        Ok(count)
    }

    fn flush(&mut self) -> io::Result<()> {
        self.note(b'|');
        Ok(())
    }
}

impl Read for Tap {
    fn read(&mut self, buf: &mut [u8]) -> io::Result<usize> {
        if !self.serves() {
            return Err(io::Error::from(ErrorKind::Other));
        }
        match buf.first_mut() {
            Some(byte) => {
                *byte = b'r';
                Ok(1)
            }
            None => Ok(0),
        }
    }
}

impl Seek for Tap {
    fn seek(&mut self, _to: SeekFrom) -> io::Result<u64> {
        Err(io::Error::from(ErrorKind::Unsupported))
    }
}

impl OpenFile for Tap {
    fn metadata(&self) -> io::Result<Metadata> {
        Err(io::Error::from(ErrorKind::Unsupported))
    }

    fn set_len(&self, _size: u64) -> io::Result<()> {
        Err(io::Error::from(ErrorKind::Unsupported))
    }

    fn sync_all(&self) -> io::Result<()> {
        if !self.serves() {
            return Err(io::Error::from(ErrorKind::StorageFull));
        }
        self.note(b'.');
        Ok(())
    }

    fn sync_data(&self) -> io::Result<()> {
        Err(io::Error::from(ErrorKind::Unsupported))
    }
}

/// Stands in for the runtime. It runs no program.
#[derive(Drop)]
struct Recorded {
    record: Rc<Record>,
}

impl Recorded {
    fn tap(&self, mark: u8) -> Tap {
        Tap {
            record: self.record.clone().ok(),
            mark,
        }
    }
}

impl Streams for Recorded {
    type Out = Tap;

    type Err = Tap;

    fn standard_output(&self) -> Tap {
        self.tap(b'>')
    }

    fn standard_error(&self) -> Tap {
        self.tap(b'!')
    }
}

/// Where a save goes there is nothing yet; anything else may not be looked at.
fn kind_at(path: &str) -> ErrorKind {
    if path.starts_with("uvw") {
        ErrorKind::NotFound
    } else {
        ErrorKind::PermissionDenied
    }
}

impl Files for Recorded {
    type File = Tap;

    type Dir = Tap;

    fn open_file(&self, _how: &OpenOptions, _path: &str) -> io::Result<Tap> {
        Ok(self.tap(b'='))
    }

    fn open_dir(&self, _path: &str) -> io::Result<Tap> {
        Err(io::Error::from(ErrorKind::Unsupported))
    }

    fn metadata(&self, path: &str) -> io::Result<Metadata> {
        Err(io::Error::from(kind_at(path)))
    }

    fn symlink_metadata(&self, path: &str) -> io::Result<Metadata> {
        Err(io::Error::from(kind_at(path)))
    }

    fn copy(&self, _from: &str, _to: &str) -> io::Result<u64> {
        Err(io::Error::from(ErrorKind::Unsupported))
    }

    fn rename(&self, _from: &str, _to: &str) -> io::Result<()> {
        if !self.record.serves() {
            return Err(io::Error::from(ErrorKind::PermissionDenied));
        }
        self.record.note(b'~');
        Ok(())
    }

    fn remove_file(&self, path: &str) -> io::Result<()> {
        Err(io::Error::from(kind_at(path)))
    }

    fn create_dir(&self, _path: &str) -> io::Result<()> {
        Err(io::Error::from(ErrorKind::Unsupported))
    }

    fn remove_dir(&self, _path: &str) -> io::Result<()> {
        Err(io::Error::from(ErrorKind::Unsupported))
    }

    fn remove_dir_all<B: Allocator>(&self, _alloc: B, _path: &str) -> io::Result<()> {
        Err(io::Error::from(ErrorKind::Unsupported))
    }
}

impl Locks for Recorded {
    fn try_lock(&self, _file: &Tap) -> io::Result<bool> {
        Err(io::Error::from(ErrorKind::Unsupported))
    }
}

impl Processes for Recorded {
    type Started = SystemProcess;

    fn spawn<B: Allocator + Clone>(
        &self,
        _command: &Command<B>,
        _stdin: &Stdio,
        _stdout: &Stdio,
        _stderr: &Stdio,
    ) -> io::Result<Child<SystemProcess>> {
        Err(io::Error::from(ErrorKind::Unsupported))
    }
}

/// How many writes, reads, waits and moves succeed, an ask, what its reply tells, and all that came by then.
const ROWS: [(u32, AskKind, &[u8], &[u8]); 13] = [
    (9, AskKind::Out, b"abc", b"done"),
    (9, AskKind::Err, b"de", b"done"),
    (9, AskKind::Out, b"f", b"done"),
    (1, AskKind::Out, b"ghi", b"fault"),
    (1, AskKind::Err, b"jkl", b"fault"),
    (1, AskKind::Write, b"mno", b"fault"),
    (5, AskKind::Read, b"r", b"fault"),
    (9, AskKind::Stamp, b"s", b"fault"),
    (9, AskKind::Remove, b"t", b"fault"),
    (9, AskKind::Save, b"uvw", b"done"),
    (1, AskKind::Save, b"uvw", b"fault"),
    (2, AskKind::Save, b"uvw", b"fault"),
    (3, AskKind::Save, b"uvw", b"fault"),
];

const CAME: &[u8] = b">ab>c|!de|>f|>gh!jk=mn=uv=w.~=uv=uv=w=uv=w.";

#[test]
fn streams_stand_apart_and_fail_in_mid_stream(rt: HostRuntime) -> Result<(), Fail> {
    let a = rt.alloc();
    let record = Rc::new(
        a,
        Record {
            bytes: Cell::new([0; 64]),
            count: Cell::new(0),
            left: Cell::new(0),
        },
    )?;
    let stand_in = Recorded {
        record: record.clone()?,
    };
    let mut host = LocalHost::new(&stand_in, a);
    for (left, kind, name, want) in ROWS {
        record.left.set(left);
        let found = told(a, &mut host, kind, name, name)?;
        assert!(rt; found.as_slice() == want, "{name:?}");
    }
    let bytes = record.bytes.get();
    assert!(rt; bytes.starts_with(CAME));
    assert_eq!(rt; record.count.get(), CAME.len());
    Ok(())
}
