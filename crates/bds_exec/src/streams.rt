//! What is printed, on two streams.
ghost use Rattle.std.specs.Prelude.{OnOk, IfOk};
ghost use Rattle.std.specs.Io.KnownBytes.{Appends};
ghost use Rattle.bds_host.specs.declared.asks.Ask.TheVariants.{Out as OutAsk, Err as ErrAsk};
ghost use Rattle.bds_exec.specs.Serving.{Serves};
ghost use Rattle.bds_exec.specs.System.{Replies};

use crate::replies::done;
use crate::system::System;
use bds_host::Reply;
use bds_value::NoMemory;
use std::io;
use std::io::{Stderr, Stdout, Write};

/// The two streams that a program prints on.
pub trait Streams {
    type Out: Write + Drop;

    type Err: Write + Drop;

    fn standard_output(&self) -> Self::Out;

    fn standard_error(&self) -> Self::Err;
}

impl Streams for HostRuntime {
    type Out = Stdout;

    type Err = Stderr;

    fn standard_output(&self) -> Stdout {
        self.stdout()
    }

    fn standard_error(&self) -> Stderr {
        self.stderr()
    }
}

/// Writes all bytes to a stream, and flushes it.
pub fn put<W: Write>(stream: &mut W, bytes: &[u8]) -> io::Result<()>
    ensures { OnOk result (Appends (W.contents stream.old) (W.contents stream.new) bytes.now) }
{
    stream.write_all(bytes)?;
    stream.flush()
}

/// Prints on standard output.
#[tactic(auto, using(crate::proofs::Answered::answered))]
pub fn print<S: System>(system: &S, bytes: &[u8]) -> Result<Reply, NoMemory>
    ensures served { Serves (OutAsk bytes.now) result }
    ensures told { IfOk result (Replies S.answers (OutAsk bytes.now)) }
{
    done(system.print_bytes(bytes))
}

/// Prints on standard error.
#[tactic(auto, using(crate::proofs::Answered::answered))]
pub fn print_error<S: System>(system: &S, bytes: &[u8]) -> Result<Reply, NoMemory>
    ensures served { Serves (ErrAsk bytes.now) result }
    ensures told { IfOk result (Replies S.answers (ErrAsk bytes.now)) }
{
    done(system.print_error(bytes))
}
