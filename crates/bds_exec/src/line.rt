//! Reads a line of the shell that runs tasks.
ghost use Rattle.std.specs.Prelude.{◌≡◌, ◌≢◌, ◌<◌, ◌^◌, ◌⊎◌, ◌∷◌, [], IfErr, IfOk, IfSome, MatchOption, option_and_then};
ghost use Rattle.std.specs.IoError.{error_kind};
ghost use Rattle.std.specs.Io.KnownBytes.{Consumes, IsAtEnd};
ghost use Rattle.std.specs.declared.io.ErrorKind.{ErrorKind};
ghost use Rattle.bds_exec.specs.FirstLine.{GivesLine};

use crate::reader::read_piece;
use bds_value::{ByteText, Listed};
use std::alloc::Global;
use std::io;
use std::io::Read;

/// The most bytes of a line that the shell writes: a number, a blank, a code and the line's end.
const MAX_LINE: usize = 15;

/// The next byte of a reader, or none where it has no more, or where too many reads in a row are interrupted.
#[tactic(auto, using(crate::proofs::Consuming::consuming))]
fn read_byte<T: Read>(source: &mut T, interrupted: &mut u64) -> io::Result<Option<u8>>
    ensures bytes { IfOk result (λ read. IfSome read (λ byte.
        Consumes (T.remaining source.old) (T.remaining source.new) (byte ∷ []))) }
    ensures given_up { IfOk result (λ read. MatchOption read
        ((interrupted.new ≡ 2 ^ 32) ⊎ IsAtEnd (T.remaining source.old))
        (λ _. interrupted.new < 2 ^ 32)) }
    ensures retried { IfErr result (λ e. error_kind e ≢ ErrorKind.Interrupted) }
{
    let mut piece = [0u8; 1];
    match read_piece(source, &mut piece, interrupted)? {
        Some(count) if count > 0 => Ok(Some(piece[0])),
        _ => Ok(None),
    }
}

/// The next line of a reader, without its end, or none where no line ends in the first 15 bytes, or where
/// 4,294,967,296 reads in a row are interrupted.
#[tactic(auto, using(crate::proofs::Consuming::consuming))]
fn read_line<T: Read>(
    alloc: Global,
    source: &mut T,
    interrupted: &mut u64,
) -> io::Result<Option<ByteText>>
    ensures line { IfOk result
        (GivesLine (T.remaining source.old) (T.remaining source.new) interrupted.new) }
    ensures retried { IfErr result (λ e. error_kind e ≢ ErrorKind.Interrupted) }
{
    let mut line = Vec::new(alloc);
    for _ in 0..MAX_LINE {
        let Some(byte) = read_byte(source, interrupted)? else {
            return Ok(None);
        };
        if byte == b'\n' {
            return Ok(Some(Listed::from_vec(line)));
        }
        line.push(byte)?;
    }
    Ok(None)
}

/// The same of a reader that may be missing.
pub fn read_from<T: Read>(
    alloc: Global,
    source: &mut Option<T>,
    interrupted: &mut u64,
) -> io::Result<Option<ByteText>>
    ensures line { let left = option_and_then T.remaining in
        IfOk result (GivesLine (left source.old) (left source.new) interrupted.new) }
    ensures retried { IfErr result (λ e. error_kind e ≢ ErrorKind.Interrupted) }
{
    match source {
        Some(source) => read_line(alloc, source, interrupted),
        None => Ok(None),
    }
}
