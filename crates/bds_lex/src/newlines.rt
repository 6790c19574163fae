//! Line ends, and the CRs before them.

ghost use Rattle.std.specs.Prelude.{◌≡◌, ◌≤◌, ◌++◌, [], length, IfOk, IfErr, count_by};
ghost use Rattle.bds_tree.specs.lexing.Bytes.{is_line_end};
ghost use Rattle.bds_tree.specs.lexing.RawTokens.{begins_with_line_end, without_crs};

use bds_value::{ByteText, Listed, NoMemory};
use std::alloc::Global;

pub fn is_line_end(b: u8) -> bool
    ensures { result ≡ is_line_end b }
{
    b == b'\n'
}

fn begins_with_line_end(bytes: &[u8]) -> bool
    ensures { result ≡ begins_with_line_end bytes.now }
{
    match bytes {
        [] => false,
        [b, ..] => is_line_end(*b),
    }
}

/// The same, byte by byte.
fn each_without_crs(alloc: Global, bytes: &[u8]) -> Result<ByteText, NoMemory>
    ensures ok { IfOk result (λ t. t ≡ without_crs bytes.now) }
    ensures shorter { IfOk result (λ t. length t ≤ length bytes.now) }
{
    let mut out = Listed::new(alloc);
    let mut rest = bytes;
    while let [b, after @ ..] = rest {
        if !(*b == b'\r' && begins_with_line_end(after)) {
            out.push(*b)?;
        }
        rest = after;
    }
    Ok(out)
}

fn copied(alloc: Global, bytes: &[u8]) -> Result<ByteText, NoMemory>
    ensures { IfOk result (λ t. t ≡ bytes.now) }
{
    match Vec::from_slice(alloc, bytes) {
        Ok(items) => Ok(Listed::from_vec(items)),
        Err(_) => Err(NoMemory),
    }
}

/// The text without the CRs directly before line ends. Most texts have no CR.
#[tactic(auto, using(crate::proofs::WithoutCrs::no_cr))]
pub fn without_crs(alloc: Global, bytes: &[u8]) -> Result<ByteText, NoMemory>
    ensures ok { IfOk result (λ t. t ≡ without_crs bytes.now) }
    ensures shorter { IfOk result (λ t. length t ≤ length bytes.now) }
{
    if bytes.contains(&b'\r') {
        each_without_crs(alloc, bytes)
    } else {
        copied(alloc, bytes)
    }
}

/// How many line ends there are.
pub fn line_ends(bytes: &[u8]) -> usize
    ensures value { result ≡ count_by is_line_end bytes.now }
    ensures within { result ≤ length bytes.now }
{
    let mut n = 0;
    for b in bytes {
        if is_line_end(*b) {
            n += 1;
        }
    }
    n
}
