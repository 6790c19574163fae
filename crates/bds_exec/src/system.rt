//! What the device asks of the system.
ghost use Rattle.std.specs.Prelude.{⊤};
ghost use Rattle.bds_exec.specs.System.{Call, AnswerTo, IsStored};
ghost use Rattle.bds_exec.specs.System.Call.{ReadFile, StampFile, WriteFile, LookAt, StoreFile, MoveFile, RemoveFile, Print, PrintError, RunCommand, StartTask, ReadLine};

use crate::commands::capture;
use crate::files::store;
use crate::locks::Locks;
use crate::reader::{ReadCounts, read_all};
use crate::runner::{Runner, begin, next_line};
use crate::streams::{Streams, put};
use crate::targets::{Target, target_of};
use bds_value::{ByteText, Listed};
use std::alloc::Global;
use std::os::unix::fs::MetadataExt;
use std::process::Processes;
use std::{fs, io};

/// The calls of the standard library that carry out asks. The library promises nothing of their answers, so `answers` stands for whatever
/// a system may answer to each call: that a reply is the one that such an answer gives is proved for all systems.
pub trait System {
    /// The shell that runs tasks.
    type Shell: Drop;

    ghost answers: { (call : Call) → AnswerTo call → Type 0 };

    /// The bytes of the file at a path, or none where reading takes too many turns.
    fn read_file(&self, alloc: Global, path: &str) -> io::Result<Option<ByteText>>
        ensures { answers (ReadFile path.now) result };

    /// The size of the file at a path in bytes, and its time: the seconds since 1970, and nanoseconds beside them.
    fn stamp_file(&self, path: &str) -> io::Result<(u64, i64, i64)>
        ensures { answers (StampFile path.now) result };

    /// Puts bytes into the file at a path, which is made or emptied first.
    fn write_file(&self, path: &str, bytes: &[u8]) -> io::Result<()>
        ensures { answers (WriteFile path.now bytes.now) result };

    /// Where a save to a path goes: what stands behind all links.
    fn look_at(&self, alloc: Global, path: &str) -> io::Result<Target>
        ensures { answers (LookAt path.now) result };

    /// Puts bytes into a new file at a path, with a mode where one is named, and waits until they are on the disk.
    fn store_file(&self, path: &str, bytes: &[u8], mode: Option<u32>) -> io::Result<()>
        ensures { answers (StoreFile path.now bytes.now mode) result };

    /// Moves a file that was stored to another path, where it takes the place of what stands there, at once.
    fn move_file(&self, from: &str, to: &str) -> io::Result<()>
        requires { IsStored answers from.now }
        ensures { answers (MoveFile from.now to.now) result };

    fn remove_file(&self, path: &str) -> io::Result<()>
        ensures { answers (RemoveFile path.now) result };

    /// Prints on standard output.
    fn print_bytes(&self, bytes: &[u8]) -> io::Result<()>
        ensures { answers (Print bytes.now) result };

    /// Prints on standard error.
    fn print_error(&self, bytes: &[u8]) -> io::Result<()>
        ensures { answers (PrintError bytes.now) result };

    /// The code and the output of a command that is run to its end, or none where reading takes too many turns.
    fn run_command(
        &self,
        alloc: Global,
        command: &str,
    ) -> io::Result<Option<(Option<i32>, ByteText)>>
        ensures { answers (RunCommand command.now) result };

    /// Has the shell run an attempt of a task. It is started with the first.
    fn start_task(
        &self,
        alloc: Global,
        shell: &mut Option<Self::Shell>,
        task: u32,
        attempt: u32,
        command: &[u8],
    ) -> io::Result<()>
        ensures { answers (StartTask task attempt command.now) result };

    /// The next line of the shell without its end, or none where it tells no more.
    fn read_line(
        &self,
        alloc: Global,
        shell: &mut Option<Self::Shell>,
    ) -> io::Result<Option<ByteText>>
        ensures { answers ReadLine result };
}

impl<R: Locks + Streams + Processes> System for R {
    type Shell = Runner<R::Started, R::File>;

    ghost answers = { λ _ _. ⊤ };

    fn read_file(&self, alloc: Global, path: &str) -> io::Result<Option<ByteText>> {
        let mut file = fs::open(self, path)?;
        let mut counts = ReadCounts::new();
        let read = read_all(alloc, &mut file, &mut counts)?;
        Ok(read.map(Listed::from_vec))
    }

    fn stamp_file(&self, path: &str) -> io::Result<(u64, i64, i64)> {
        let found = fs::metadata(self, path)?;
        Ok((found.len(), found.mtime(), found.mtime_nsec()))
    }

    fn write_file(&self, path: &str, bytes: &[u8]) -> io::Result<()> {
        fs::write(self, path, bytes)
    }

    fn look_at(&self, alloc: Global, path: &str) -> io::Result<Target> {
        target_of(alloc, self, path)
    }

    fn store_file(&self, path: &str, bytes: &[u8], mode: Option<u32>) -> io::Result<()> {
        store(self, path, bytes, mode)
    }

    fn move_file(&self, from: &str, to: &str) -> io::Result<()> {
        fs::rename(self, from, to)
    }

    fn remove_file(&self, path: &str) -> io::Result<()> {
        fs::remove_file(self, path)
    }

    fn print_bytes(&self, bytes: &[u8]) -> io::Result<()> {
        put(&mut self.standard_output(), bytes)
    }

    fn print_error(&self, bytes: &[u8]) -> io::Result<()> {
        put(&mut self.standard_error(), bytes)
    }

    fn run_command(
        &self,
        alloc: Global,
        command: &str,
    ) -> io::Result<Option<(Option<i32>, ByteText)>> {
        capture(alloc, self, command)
    }

    fn start_task(
        &self,
        alloc: Global,
        shell: &mut Option<Runner<R::Started, R::File>>,
        task: u32,
        attempt: u32,
        command: &[u8],
    ) -> io::Result<()> {
        begin(alloc, self, shell, (task, attempt), command)
    }

    fn read_line(
        &self,
        alloc: Global,
        shell: &mut Option<Runner<R::Started, R::File>>,
    ) -> io::Result<Option<ByteText>> {
        let mut interrupted = 0;
        next_line(alloc, shell, &mut interrupted)
    }
}
