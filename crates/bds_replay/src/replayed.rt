//! A host that answers given replies, of which its log tells how many were used.
ghost use Rattle.std.specs.Prelude.{◌≡◌, ◌≢◌, ◌≤◌, [], true, IfOk, OnErr, List, drop};
ghost use Rattle.bds_host.specs.Asks.{answers as answers_of, fits as fits_of};
ghost use Rattle.bds_host.specs.Host.{Answered, FoundNoRoom, faults};
ghost use Rattle.bds_host.specs.declared.asks.Reply.{Reply as AReply};
ghost use Rattle.bds_host.specs.declared.asks.Reply.TheVariants.{NoRoom};
ghost use Rattle.bds_replay.specs.Log.{is_given as is_given_of};
ghost use Rattle.bds_replay.specs.Replayed.{IsReplayed, ReplaysTo, replayed_reply};

use bds_host::{Ask, Host, Replies, Reply, Trace, copy_reply, fits};
use bds_value::{Listed, NoMemory};
use std::alloc::Global;
use std::collections::VecDeque;
use std::marker::{Brand, Model, PhantomData};

/// The replies that a host was given.
pub trait Given {
    ghost given: { List AReply };
}

impl Given for Brand {
    ghost given = { [] };
}

/// Answers given replies, in order. A reply is used up where its pair is stored.
#[derive(Drop)]
pub struct Replayed<K: Given> {
    left: VecDeque<Reply>,
    trace: Trace,
    given: PhantomData<K>,
}

impl<K: Given> Model for Replayed<K> {
    ghost use Rattle.bds_replay.specs.Replayed.{IsReplayed, Replaying};

    ghost Value = { Replaying };

    ghost view = { λ s. record { left = s.left.items; log = s.trace } };

    ghost invariant = { λ s. IsReplayed K.given (record { left = s.left.items; log = s.trace }) };
}

impl<K: Given> Replayed<K> {
    /// Takes no memory.
    pub fn new(alloc: Global, replies: Replies) -> Replayed<K>
        requires { replies ≡ K.given }
        ensures left { result.left ≡ replies }
        ensures log { result.log ≡ [] }
    {
        Replayed {
            left: VecDeque::from_vec(replies.into_vec()),
            trace: Listed::new(alloc),
            given: PhantomData,
        }
    }

    /// Whether no reply is left.
    pub fn is_used_up(&self) -> bool
        ensures used { result ≡ true → self.now.left ≡ [] }
        ensures left { self.now.left ≡ [] → result ≡ true }
    {
        self.left.is_empty()
    }

    /// What was replied are the first of the given replies: a law, which does nothing.
    pub fn is_replayed(&self)
        ensures { IsReplayed K.given self.now }
    {
        let _left = &self.left;
    }
}

/// Whether something was answered by a reply.
fn is_given(reply: &Reply) -> bool
    ensures { result ≡ is_given_of reply.now }
{
    match reply {
        Reply::Fault => false,
        Reply::NoRoom => false,
        _ => true,
    }
}

/// Whether a reply answers an ask; a fault and `NoRoom` answer none.
#[tactic(auto, using(crate::proofs::Replaying::answering))]
fn answers(ask: &Ask, reply: &Reply) -> bool
    ensures { result ≡ answers_of ask.now reply.now }
{
    is_given(reply) && fits(ask, reply)
}

/// The next reply, where it answers the ask, and else `Fault`.
#[tactic(auto, using(crate::proofs::Replaying::replies))]
fn next_reply(alloc: Global, left: &VecDeque<Reply>, ask: &Ask) -> Result<Reply, NoMemory>
    ensures reply { IfOk result (λ reply. reply ≡ replayed_reply ask.now left.now.items) }
{
    match left.front() {
        Some(reply) if answers(ask, reply) => copy_reply(alloc, reply),
        _ => Ok(Reply::Fault),
    }
}

/// Uses up the next reply.
fn use_up(left: &mut VecDeque<Reply>)
    ensures { left.new.items ≡ drop 1 left.old.items }
{
    let _used = left.pop_front();
}

/// Stores an ask with the next reply, and gives that reply.
#[tactic(auto, using(crate::proofs::Replaying::replies))]
fn answer(
    alloc: Global,
    left: &mut VecDeque<Reply>,
    trace: &mut Trace,
    ask: Ask,
) -> Result<Reply, NoMemory>
    ensures answered { IfOk result (λ reply. Answered trace.old trace.new ask reply) }
    ensures refused { OnErr result (FoundNoRoom trace.old trace.new ask) }
    ensures never_falls { faults trace.old ≤ faults trace.new }
    ensures replays { ReplaysTo ask (record { left = left.old.items; log = trace.old })
        (record { left = left.new.items; log = trace.new }) result }
{
    let kept = next_reply(alloc, left, &ask)?;
    let reply = copy_reply(alloc, &kept)?;
    trace.push((ask, kept))?;
    use_up(left);
    Ok(reply)
}

impl<K: Given> Host for Replayed<K> {
    ghost log = { λ s. s.log };

    fn ask(&mut self, alloc: Global, ask: Ask) -> Result<Reply, NoMemory>
        ensures answered { IfOk result (λ reply. Answered self.old.log self.new.log ask reply) }
        ensures refused { OnErr result (FoundNoRoom self.old.log self.new.log ask) }
        ensures never_falls { faults self.old.log ≤ faults self.new.log }
        ensures replays { ReplaysTo ask self.old self.new result }
    {
        answer(alloc, &mut self.left, &mut self.trace, ask)
    }

    fn trace(&self) -> &Trace {
        &self.trace
    }
}
