//! A host over which nothing is done outside.
ghost use Rattle.std.specs.Prelude.{◌≡◌, ◌≤◌, [], IfOk, OnErr};
ghost use Rattle.bds_host.specs.Host.{Answered, FoundNoRoom, Log, faults};
ghost use Rattle.bds_dry.specs.Dry.{DriesTo, IsDry};

use crate::told::reply_dry;
use bds_around::{Since, keep_reply, take_room};
use bds_host::{Ask, Host, Reply, Trace};
use bds_value::{Listed, NoMemory};
use std::alloc::Global;
use std::marker::{Model, PhantomData};

/// Hands on reads, stamps and what is printed. What would be run is told in its place and replied as if all went
/// well, and nothing is written, removed or saved. Its log begins where it was made.
#[derive(Drop)]
pub struct Dry<H: Host, K: Since> {
    inner: H,
    trace: Trace,
    since: PhantomData<K>,
}

impl<H: Host, K: Since> Model for Dry<H, K> {
    ghost use Rattle.bds_dry.specs.Dry.{Drying, IsDry};

    ghost Value = { Drying };

    ghost view = { λ s. record { inner = H.log s.inner; log = s.trace } };

    ghost invariant = { λ s. IsDry K.start (record { inner = H.log s.inner; log = s.trace }) };
}

impl<H: Host, K: Since> Dry<H, K> {
    /// Takes no memory.
    pub fn new(alloc: Global, inner: H) -> Dry<H, K>
        requires { H.log inner ≡ K.start }
        ensures inner { result.inner ≡ H.log inner }
        ensures log { result.log ≡ [] }
    {
        Dry {
            inner,
            trace: Listed::new(alloc),
            since: PhantomData,
        }
    }

    /// The host that was asked.
    pub fn into_inner(self) -> H
        ensures inner { H.log result ≡ self.inner }
        ensures dry { IsDry K.start self }
    {
        self.inner
    }
}

/// Stores an ask with its reply.
fn ask_and_store<H: Host>(
    alloc: Global,
    inner: &mut H,
    trace: &mut Trace,
    ask: Ask,
) -> Result<Reply, NoMemory>
    ensures answered { IfOk result (λ reply. Answered trace.old trace.new ask reply) }
    ensures refused { OnErr result (FoundNoRoom trace.old trace.new ask) }
    ensures never_falls { faults trace.old ≤ faults trace.new }
    ensures dries { DriesTo ask (record { inner = H.log inner.old; log = trace.old })
        (record { inner = H.log inner.new; log = trace.new }) result }
{
    take_room(alloc, trace, &ask)?;
    let reply = reply_dry(alloc, inner, &ask)?;
    match keep_reply(alloc, trace, &reply) {
        Ok(()) => Ok(reply),
        Err(NoMemory) => Err(NoMemory),
    }
}

impl<H: Host, K: Since> Host for Dry<H, K> {
    ghost log = { λ s. s.log };

    fn ask(&mut self, alloc: Global, ask: Ask) -> Result<Reply, NoMemory>
        ensures answered { IfOk result (λ reply. Answered self.old.log self.new.log ask reply) }
        ensures refused { OnErr result (FoundNoRoom self.old.log self.new.log ask) }
        ensures never_falls { faults self.old.log ≤ faults self.new.log }
        ensures dries { DriesTo ask self.old self.new result }
    {
        ask_and_store(alloc, &mut self.inner, &mut self.trace, ask)
    }

    fn trace(&self) -> &Trace {
        &self.trace
    }
}
