//! What is told of the asks of a run and of its end.
ghost use Rattle.std.specs.Prelude.{◌≡◌, ◌++◌, IfOk, OnOk};
ghost use Rattle.bds_tools.specs.Lines.{counted};
ghost use Rattle.bds_tools.specs.Summary.{asked, is_next, is_stamp, is_start, summary_text};

use crate::lines::put_counted;
use bds_host::{Ask, Reply, Trace};
use bds_value::{ByteText, Listed, NoMemory, put};
use std::alloc::Global;

/// How many asks of three kinds there are.
#[derive(Clone, Copy)]
struct Counts {
    stamps: usize,
    starts: usize,
    nexts: usize,
}

fn counted_asks(pairs: &[(Ask, Reply)]) -> Counts
    ensures stamps { result.stamps ≡ asked is_stamp pairs.now }
    ensures starts { result.starts ≡ asked is_start pairs.now }
    ensures nexts { result.nexts ≡ asked is_next pairs.now }
{
    let mut stamps = 0;
    let mut starts = 0;
    let mut nexts = 0;
    for (ask, _) in pairs {
        match ask {
            Ask::Stamp(_) => stamps += 1,
            Ask::Start { .. } => starts += 1,
            Ask::Next { .. } => nexts += 1,
            _ => {}
        }
    }
    Counts {
        stamps,
        starts,
        nexts,
    }
}

/// One line with the numbers of stamps, of starts and of choices of what goes on, and with the status.
pub fn summary(alloc: Global, trace: &Trace, status: u8) -> Result<ByteText, NoMemory>
    ensures { IfOk result (λ text. text ≡ summary_text trace.now status) }
{
    let counts = counted_asks(trace.as_slice());
    let mut out = Vec::new(alloc);
    put_counted(&mut out, b"stamps", counts.stamps as u64)?;
    put_counted(&mut out, b" starts", counts.starts as u64)?;
    put_counted(&mut out, b" nexts", counts.nexts as u64)?;
    put_counted(&mut out, b" status", u64::from(status))?;
    put(&mut out, b"\n")?;
    Ok(Listed::from_vec(out))
}
