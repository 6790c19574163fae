//! Reads a reader to its end.
ghost use Rattle.std.specs.Prelude.{◌≡◌, ◌≢◌, ◌<◌, ◌≤◌, ◌^◌, ◌+◌, ◌⊎◌, length, take, IfErr, IfOk, IfSome, MatchOption};
ghost use Rattle.std.specs.IoError.{error_kind};
ghost use Rattle.std.specs.declared.io.ErrorKind.{ErrorKind};
ghost use Rattle.std.specs.Io.KnownBytes.{Consumes, IsAtEnd, Keeps};

use std::alloc::Global;
use std::io;
use std::io::{ErrorKind, Read};

/// How often a loop over a reader may turn.
const MAX_TURNS: u64 = 4_294_967_296;

/// The most bytes of one turn.
const MAX_PIECE: usize = 16_384;

/// The reads that a loop over a reader has made.
#[derive(Drop)]
pub struct ReadCounts {
    /// The reads that gave at least one byte.
    pub taken: u64,
    /// The reads since the last piece that a signal interrupted.
    pub interrupted: u64,
}

impl ReadCounts {
    /// None was made yet.
    pub fn new() -> ReadCounts {
        ReadCounts {
            taken: 0,
            interrupted: 0,
        }
    }
}

/// One read of a reader: how many bytes it gave, or none where a signal came in between, which is counted.
fn read_once<T: Read>(
    source: &mut T,
    piece: &mut [u8],
    interrupted: &mut u64,
) -> io::Result<Option<usize>>
    requires { interrupted.old < 2 ^ 32 }
    ensures bound { IfOk result (λ read. IfSome read (λ n. n ≤ length piece.new)) }
    ensures bytes { IfOk result (λ read.
        MatchOption read (Keeps (T.remaining source.old) (T.remaining source.new)) (λ n. Consumes (T.remaining source.old) (T.remaining source.new) (take n piece.new))) }
    ensures end { IfOk result (λ read. IfSome read (λ n. n ≡ 0 → 0 < length piece.old → IsAtEnd (T.remaining source.new))) }
    ensures counted { IfOk result (λ read. MatchOption read (interrupted.new ≡ interrupted.old + 1) (λ n. interrupted.new ≡ interrupted.old)) }
    ensures retried { IfErr result (λ e. error_kind e ≢ ErrorKind.Interrupted) }
{
    match source.read(piece) {
        Ok(count) => Ok(Some(count)),
        Err(error) => {
            if error.kind() == ErrorKind::Interrupted {
                *interrupted += 1;
                return Ok(None);
            }
            Err(error)
        }
    }
}

/// The next piece of a reader. A read that a signal interrupts loses no byte and is made again, at most
/// 4,294,967,296 times in a row, which are counted; behind so many there is no piece.
#[tactic(auto, using(crate::proofs::Consuming::consuming))]
pub fn read_piece<T: Read>(
    source: &mut T,
    piece: &mut [u8],
    interrupted: &mut u64,
) -> io::Result<Option<usize>>
    ensures bound { IfOk result (λ read. IfSome read (λ n. n ≤ length piece.new)) }
    ensures bytes { IfOk result (λ read. IfSome read (λ n.
        Consumes (T.remaining source.old) (T.remaining source.new) (take n piece.new))) }
    ensures end { IfOk result (λ read. IfSome read (λ n. n ≡ 0 → 0 < length piece.old → IsAtEnd (T.remaining source.new))) }
    ensures counted { IfOk result (λ read. MatchOption read (interrupted.new ≡ 2 ^ 32) (λ _. interrupted.new < 2 ^ 32)) }
    ensures retried { IfErr result (λ e. error_kind e ≢ ErrorKind.Interrupted) }
{
    *interrupted = 0;
    for _ in 0..MAX_TURNS {
        match read_once(source, piece, interrupted) {
            Ok(Some(count)) => return Ok(Some(count)),
            Ok(None) => {}
            Err(error) => return Err(error),
        }
    }
    Ok(None)
}

/// All bytes that a reader has left, or nothing where it takes 4,294,967,296 turns, of at least one byte each, or
/// so many reads in a row are interrupted.
#[tactic(auto, using(crate::proofs::Consuming::consuming))]
pub fn read_all<T: Read>(
    alloc: Global,
    source: &mut T,
    counts: &mut ReadCounts,
) -> io::Result<Option<Vec<u8>>>
    ensures all { IfOk result (λ read. IfSome read (λ all.
        IfSome (T.remaining source.old) (λ left. all.items ≡ left))) }
    ensures given_up { IfOk result (λ read. MatchOption read
        ((counts.new.taken ≡ 2 ^ 32) ⊎ (counts.new.interrupted ≡ 2 ^ 32))
        (λ all. (counts.new.taken < 2 ^ 32) × (counts.new.interrupted < 2 ^ 32))) }
    ensures turns { IfOk result (λ read. IfSome (T.remaining source.old) (λ left. counts.new.taken ≤ length left)) }
    ensures retried { IfErr result (λ e. error_kind e ≢ ErrorKind.Interrupted) }
{
    let mut bytes = Vec::new(alloc);
    let mut piece = [0u8; MAX_PIECE];
    counts.taken = 0;
    for _ in 0..MAX_TURNS {
        let Some(count) = read_piece(source, &mut piece, &mut counts.interrupted)? else {
            return Ok(None);
        };
        if count == 0 {
            return Ok(Some(bytes));
        }
        bytes.extend_from_slice(&piece[..count])?;
        counts.taken += 1;
    }
    Ok(None)
}

#[cfg(test)]
mod tests {
    use super::*;
    use std::test::Fail;

    /// Gives two bytes, is interrupted, gives two more, and then ends or fails.
    #[derive(Drop)]
    struct Slow {
        turn: u8,
        fails: bool,
    }

    impl Read for Slow {
        fn read(&mut self, buf: &mut [u8]) -> io::Result<usize> {
            self.turn = self.turn.saturating_add(1);
            if self.turn == 2 {
                return Err(io::Error::from(ErrorKind::Interrupted));
            }
            if self.turn > 3 && self.fails {
                return Err(io::Error::from(ErrorKind::BrokenPipe));
            }
            if self.turn > 3 || buf.len() < 2 {
                return Ok(0);
            }
            buf[0] = b'a';
            buf[1] = b'b';
            Ok(2)
        }
    }

    #[test]
    fn a_signal_loses_no_byte(rt: HostRuntime) -> Result<(), Fail> {
        let mut slow = Slow {
            turn: 0,
            fails: false,
        };
        let mut counts = ReadCounts::new();
        let all = read_all(rt.alloc(), &mut slow, &mut counts)?;
        assert!(rt; matches!(&all, Some(bytes) if bytes.as_slice() == b"abab".as_slice()));
        assert!(rt; counts.taken == 2);
        let mut broken = Slow {
            turn: 0,
            fails: true,
        };
        let none = read_all(rt.alloc(), &mut broken, &mut counts);
        assert!(rt; none.is_err());
        Ok(())
    }
}
