//! A host that answers given replies.
ghost use Rattle.std.specs.Prelude.{◌≡◌, ◌≤◌, [], true, IfOk, OnOk, OnErr, drop};
ghost use Rattle.bds_host.specs.Asks.{fits as fits_of};
ghost use Rattle.bds_host.specs.Host.{Answered, FoundNoRoom, faults};
ghost use Rattle.bds_host.specs.Replying.{reply_to, IsUsed};

use crate::{Ask, Host, Replies, Reply, Trace, copy_reply, fits, record_ask, record_reply};
use bds_value::{Listed, NoMemory};
use std::alloc::Global;
use std::collections::VecDeque;
use std::marker::Model;

/// Answers given replies, in order.
#[derive(Drop)]
pub struct Scripted {
    replies: VecDeque<Reply>,
    trace: Trace,
}

impl Model for Scripted {
    ghost use Rattle.bds_host.specs.Replying.{Replying};

    ghost Value = { Replying };

    ghost view = { λ s. record { left = s.replies.items; log = s.trace } };
}

impl Scripted {
    /// Takes no memory.
    pub fn new(alloc: Global, replies: Replies) -> Scripted
        ensures left { result.left ≡ replies }
        ensures log { result.log ≡ [] }
    {
        Scripted {
            replies: VecDeque::from_vec(replies.into_vec()),
            trace: Listed::new(alloc),
        }
    }
}

/// The next reply, where it fits the ask, and else `Fault`. It is used up in both cases.
fn next_reply(replies: &mut VecDeque<Reply>, ask: &Ask) -> Reply
    ensures reply { result ≡ reply_to ask.now replies.old.items }
    ensures fitting { fits_of ask.now result ≡ true }
    ensures used { replies.new.items ≡ drop 1 replies.old.items }
{
    match replies.pop_front() {
        Some(reply) => {
            if fits(ask, &reply) {
                reply
            } else {
                Reply::Fault
            }
        }
        None => Reply::Fault,
    }
}

/// Stores an ask with the next reply, and gives that reply.
#[tactic(auto, using(crate::proofs::Growing::growing))]
fn answer(
    alloc: Global,
    replies: &mut VecDeque<Reply>,
    trace: &mut Trace,
    ask: Ask,
) -> Result<Reply, NoMemory>
    ensures answered { IfOk result (λ reply. Answered trace.old trace.new ask reply) }
    ensures refused { OnErr result (FoundNoRoom trace.old trace.new ask) }
    ensures never_falls { faults trace.old ≤ faults trace.new }
    ensures reply { IfOk result (λ reply. reply ≡ reply_to ask replies.old.items) }
    ensures used { replies.new.items ≡ drop 1 replies.old.items }
    ensures refusal { OnErr result (IsUsed (record { left = replies.old.items; log = trace.old })
        (record { left = replies.new.items; log = trace.new }) ask) }
{
    let reply = next_reply(replies, &ask);
    record_ask(trace, ask)?;
    match reply {
        Reply::NoRoom => Err(NoMemory),
        reply => {
            let kept = copy_reply(alloc, &reply)?;
            record_reply(trace, kept);
            Ok(reply)
        }
    }
}

impl Host for Scripted {
    ghost log = { λ s. s.log };

    /// Each ask uses up a reply, also one for whose pair there is no room.
    fn ask(&mut self, alloc: Global, ask: Ask) -> Result<Reply, NoMemory>
        ensures answered { IfOk result (λ reply. Answered self.old.log self.new.log ask reply) }
        ensures refused { OnErr result (FoundNoRoom self.old.log self.new.log ask) }
        ensures never_falls { faults self.old.log ≤ faults self.new.log }
        ensures reply { IfOk result (λ reply. reply ≡ reply_to ask self.old.left) }
        ensures used { self.new.left ≡ drop 1 self.old.left }
        ensures refusal { OnErr result (IsUsed self.old self.new ask) }
    {
        answer(alloc, &mut self.replies, &mut self.trace, ask)
    }

    fn trace(&self) -> &Trace {
        &self.trace
    }
}
