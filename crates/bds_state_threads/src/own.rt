//! Whether a thread's own part is valid.
ghost use Rattle.std.specs.Prelude.{◌≡◌, IfOk};
ghost use Rattle.std.specs.Bool.{Decides};
ghost use Rattle.std.specs.List.{All};
ghost use Rattle.bds_value.specs.Fields.{IsFieldValue};
ghost use Rattle.bds_state_threads.specs.Judged.{IsOwn};

use crate::types::are_of;
use bds_code::{Status, Thread, Unit};
use bds_value::{MAX_CALLS, NoMemory};
use std::alloc::Global;

/// Whether status, globals and number of frames of a thread go together.
pub(crate) fn is_own(alloc: Global, unit: &Unit, thread: &Thread) -> Result<bool, NoMemory>
    requires { All IsFieldValue thread.now.globals }
    ensures { IfOk result (λ own. Decides own (IsOwn unit.now thread.now)) }
{
    let count = thread.frames.count();
    match &thread.status {
        Status::Ended => Ok(thread.globals.len() == 0 && count == 0),
        Status::Waiting(_) => {
            if count > MAX_CALLS {
                return Ok(false);
            }
            are_of(alloc, thread.globals.as_slice(), unit.globals.as_slice())
        }
        Status::Ready => {
            if count == 0 || count > MAX_CALLS {
                return Ok(false);
            }
            are_of(alloc, thread.globals.as_slice(), unit.globals.as_slice())
        }
    }
}
