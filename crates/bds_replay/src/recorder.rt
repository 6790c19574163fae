//! A host that stores the replies of another.
ghost use Rattle.std.specs.Prelude.{◌≡◌, ◌≤◌, ◌<◌, ◌++◌, [], ◌∷◌, IfOk, OnOk, OnErr, length};
ghost use Rattle.bds_host.specs.Host.{Answered, FoundNoRoom, Log, faults};
ghost use Rattle.bds_host.specs.declared.asks.Ask.{Ask as AnAsk};
ghost use Rattle.bds_host.specs.declared.asks.Reply.{Reply as AReply};
ghost use Rattle.bds_replay.specs.Recorded.{IsRecorded, StoresTo};

use bds_around::{Since, keep_reply, take_room};
use bds_host::{Ask, Host, Replies, Reply, Trace, copy_reply};
use bds_value::{Listed, NoMemory};
use std::alloc::Global;
use std::marker::{Model, PhantomData};

/// Asks another host, gives its reply and stores it. Its log begins where it was made.
#[derive(Drop)]
pub struct Recorder<H: Host, K: Since> {
    inner: H,
    replies: Replies,
    trace: Trace,
    since: PhantomData<K>,
}

impl<H: Host, K: Since> Model for Recorder<H, K> {
    ghost use Rattle.bds_replay.specs.Recorded.{IsRecorded, Recording};

    ghost Value = { Recording };

    ghost view = { λ s. record { inner = H.log s.inner; replies = s.replies; log = s.trace } };

    ghost invariant = { λ s.
        IsRecorded K.start (record { inner = H.log s.inner; replies = s.replies; log = s.trace }) };
}

impl<H: Host, K: Since> Recorder<H, K> {
    /// Takes no memory.
    pub fn new(alloc: Global, inner: H) -> Recorder<H, K>
        requires { H.log inner ≡ K.start }
        ensures inner { result.inner ≡ H.log inner }
        ensures log { result.log ≡ [] }
    {
        Recorder {
            inner,
            replies: Listed::new(alloc),
            trace: Listed::new(alloc),
            since: PhantomData,
        }
    }

    /// The replies that are stored.
    pub fn replies(&self) -> &Replies
        ensures replies { result.now ≡ self.now.replies }
        ensures recorded { IsRecorded K.start self.now }
    {
        &self.replies
    }

    /// The host that was asked.
    pub fn into_inner(self) -> H
        ensures inner { H.log result ≡ self.inner }
        ensures recorded { IsRecorded K.start self }
    {
        self.inner
    }

    /// The replies that are stored, and the host that was asked.
    pub fn into_parts(self) -> (Replies, H)
        ensures replies { result.0 ≡ self.replies }
        ensures inner { H.log result.1 ≡ self.inner }
        ensures recorded { IsRecorded K.start self }
    {
        (self.replies, self.inner)
    }
}

/// Stores a reply, and puts it into the last pair.
fn store(
    alloc: Global,
    replies: &mut Replies,
    trace: &mut Trace,
    reply: &Reply,
) -> Result<(), NoMemory>
    requires { 0 < length trace.old }
    ensures ok { OnOk result ((before : Log) (ask : AnAsk) (old : AReply) →
        trace.old ≡ before ++ (ask, old) ∷ [] → trace.new ≡ before ++ (ask, reply.now) ∷ []) }
    ensures stored { OnOk result (replies.new ≡ replies.old ++ reply.now ∷ []) }
    ensures err { OnErr result (trace.new ≡ trace.old) }
{
    let stored = copy_reply(alloc, reply)?;
    replies.push(stored)?;
    keep_reply(alloc, trace, reply)
}

/// Asks another host, and stores its reply.
fn ask_and_store<H: Host>(
    alloc: Global,
    inner: &mut H,
    replies: &mut Replies,
    trace: &mut Trace,
    ask: Ask,
) -> Result<Reply, NoMemory>
    ensures answered { IfOk result (λ reply. Answered trace.old trace.new ask reply) }
    ensures refused { OnErr result (FoundNoRoom trace.old trace.new ask) }
    ensures never_falls { faults trace.old ≤ faults trace.new }
    ensures stored { StoresTo ask (record { inner = H.log inner.old; replies = replies.old; log = trace.old })
        (record { inner = H.log inner.new; replies = replies.new; log = trace.new }) result }
{
    take_room(alloc, trace, &ask)?;
    match inner.ask(alloc, ask) {
        Ok(reply) => match store(alloc, replies, trace, &reply) {
            Ok(()) => Ok(reply),
            Err(NoMemory) => Err(NoMemory),
        },
        Err(NoMemory) => Err(NoMemory),
    }
}

impl<H: Host, K: Since> Host for Recorder<H, K> {
    ghost log = { λ s. s.log };

    fn ask(&mut self, alloc: Global, ask: Ask) -> Result<Reply, NoMemory>
        ensures answered { IfOk result (λ reply. Answered self.old.log self.new.log ask reply) }
        ensures refused { OnErr result (FoundNoRoom self.old.log self.new.log ask) }
        ensures never_falls { faults self.old.log ≤ faults self.new.log }
        ensures stored { StoresTo ask self.old self.new result }
    {
        ask_and_store(
            alloc,
            &mut self.inner,
            &mut self.replies,
            &mut self.trace,
            ask,
        )
    }

    fn trace(&self) -> &Trace {
        &self.trace
    }
}
