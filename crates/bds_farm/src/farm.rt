//! A host whose tasks are run elsewhere.
ghost use Rattle.std.specs.Prelude.{◌≡◌, ◌≤◌, [], IfOk, OnErr, List, ℕ};
ghost use Rattle.bds_host.specs.Host.{Answered, FoundNoRoom, Log, faults};
ghost use Rattle.bds_farm.specs.Farming.{IsFarm, TurnsTo};
ghost use Rattle.bds_farm.specs.Inside.{queue_of};

use crate::known::Known;
use crate::replying::reply_farm;
use bds_around::{keep_reply, take_room};
use bds_host::{Ask, Host, Reply, Trace};
use bds_value::{ByteText, Listed, NoMemory};
use std::alloc::Global;
use std::marker::{Brand, Model, PhantomData};

/// What the log of a host was when a farm was made around it, and the two commands of that farm.
pub trait Farmed {
    ghost start: { Log };

    ghost submit: { List ℕ };

    ghost poll: { List ℕ };
}

impl Farmed for Brand {
    ghost start = { [] };

    ghost submit = { [] };

    ghost poll = { [] };
}

/// Submits tasks by one command, and asks another for their ends. All else goes to the host around which it stands.
/// Its log begins where it was made.
#[derive(Drop)]
pub struct Farm<H: Host, K: Farmed> {
    inner: H,
    submit: ByteText,
    poll: ByteText,
    known: Known,
    trace: Trace,
    farmed: PhantomData<K>,
}

impl<H: Host, K: Farmed> Model for Farm<H, K> {
    ghost use Rattle.std.specs.Prelude.{◌≡◌};
    ghost use Rattle.bds_farm.specs.Farming.{Farming, IsFarm};
    ghost use Rattle.bds_farm.specs.Inside.{queue_of};

    ghost Value = { Farming };

    ghost view = { λ s. record { queue = queue_of s.known; inner = H.log s.inner; log = s.trace } };

    ghost invariant = { λ s. (s.submit ≡ K.submit) × (s.poll ≡ K.poll)
        × IsFarm K.submit K.poll K.start (record { queue = queue_of s.known; inner = H.log s.inner; log = s.trace }) };
}

impl<H: Host, K: Farmed> Farm<H, K> {
    /// Takes no memory.
    pub fn new(alloc: Global, inner: H, submit: ByteText, poll: ByteText) -> Farm<H, K>
        requires start { H.log inner ≡ K.start }
        requires submit { submit ≡ K.submit }
        requires poll { poll ≡ K.poll }
        ensures inner { result.inner ≡ H.log inner }
        ensures log { result.log ≡ [] }
    {
        Farm {
            inner,
            submit,
            poll,
            known: Known {
                last: None,
                open_ends: Vec::new(alloc),
                ends: Vec::new(alloc),
            },
            trace: Listed::new(alloc),
            farmed: PhantomData,
        }
    }

    /// The host that was asked.
    pub fn into_inner(self) -> H
        ensures inner { H.log result ≡ self.inner }
        ensures farm { IsFarm K.submit K.poll K.start self }
    {
        self.inner
    }
}

/// Stores an ask with its reply.
fn ask_and_store<H: Host>(
    alloc: Global,
    inner: &mut H,
    submit: &ByteText,
    poll: &ByteText,
    known: &mut Known,
    trace: &mut Trace,
    ask: Ask,
) -> Result<Reply, NoMemory>
    ensures answered { IfOk result (λ reply. Answered trace.old trace.new ask reply) }
    ensures refused { OnErr result (FoundNoRoom trace.old trace.new ask) }
    ensures never_falls { faults trace.old ≤ faults trace.new }
    ensures turns { TurnsTo submit.now poll.now ask
        (record { queue = queue_of known.old; inner = H.log inner.old; log = trace.old })
        (record { queue = queue_of known.new; inner = H.log inner.new; log = trace.new }) result }
{
    take_room(alloc, trace, &ask)?;
    let reply = reply_farm(alloc, inner, submit, poll, known, &ask)?;
    match keep_reply(alloc, trace, &reply) {
        Ok(()) => Ok(reply),
        Err(NoMemory) => Err(NoMemory),
    }
}

impl<H: Host, K: Farmed> Host for Farm<H, K> {
    ghost log = { λ s. s.log };

    fn ask(&mut self, alloc: Global, ask: Ask) -> Result<Reply, NoMemory>
        ensures answered { IfOk result (λ reply. Answered self.old.log self.new.log ask reply) }
        ensures refused { OnErr result (FoundNoRoom self.old.log self.new.log ask) }
        ensures never_falls { faults self.old.log ≤ faults self.new.log }
        ensures turns { TurnsTo K.submit K.poll ask self.old self.new result }
    {
        ask_and_store(
            alloc,
            &mut self.inner,
            &self.submit,
            &self.poll,
            &mut self.known,
            &mut self.trace,
            ask,
        )
    }

    fn trace(&self) -> &Trace {
        &self.trace
    }
}
