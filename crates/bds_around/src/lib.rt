//! What hosts share that stand around another host: a log of their own, and where the other's log began.
#![tactic(auto)]

mod copies;
mod names;
mod rooms;
mod since;
mod turns;

pub use copies::copy_ask;
pub use names::{put_number, put_task};
pub use rooms::{keep_reply, take_room};
pub use since::Since;
pub use turns::turn;
