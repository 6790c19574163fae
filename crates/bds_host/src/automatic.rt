//! A host that answers by itself.
ghost use Rattle.std.specs.Prelude.{◌≡◌, ◌≢◌, ◌≤◌, [], ◌∷◌, fold, min, true, IfOk, OnErr, IfSome};
ghost use Rattle.std.specs.List.{reduce};
ghost use Rattle.bds_host.specs.Asks.{has, fits as fits_of};
ghost use Rattle.bds_host.specs.Auto.{next_reply, auto_reply};
ghost use Rattle.bds_host.specs.Host.{Answered, FoundNoRoom, faults};
ghost use Rattle.bds_host.specs.declared.asks.Ask.TheVariants.{Next};
ghost use Rattle.bds_host.specs.declared.asks.Reply.TheVariants.{NoRoom};

use crate::{Ask, Host, Reply, Trace};
use bds_value::{Listed, NoMemory};
use std::alloc::Global;
use std::marker::Model;

/// Answers as if all went well, no file were there and no command printed.
#[derive(Drop)]
pub struct Auto {
    trace: Trace,
}

impl Model for Auto {
    ghost use Rattle.bds_host.specs.Host.{Log};

    ghost Value = { Log };

    ghost view = { λ s. s.trace };
}

impl Auto {
    /// Takes no memory.
    pub fn new(alloc: Global) -> Auto
        ensures { result ≡ [] }
    {
        Auto {
            trace: Listed::new(alloc),
        }
    }
}

/// The least of a number and others.
fn least_with(first: u32, others: &[u32]) -> u32
    ensures least { result ≡ fold min first others.now }
    ensures within { has (first ∷ others.now) result ≡ true }
{
    let mut least = first;
    for number in others {
        least = least.min(*number);
    }
    least
}

/// The least of some numbers.
pub fn least(numbers: &[u32]) -> Option<u32>
    ensures least { result ≡ reduce min numbers.now }
    ensures within { IfSome result (λ k. has numbers.now k ≡ true) }
{
    match numbers {
        [] => None,
        [first, others @ ..] => Some(least_with(*first, others)),
    }
}

/// The least ready thread, or else an end of the least running task.
fn next(ready: &[u32], running: &[u32]) -> Reply
    ensures reply { result ≡ next_reply (reduce min ready.now) (reduce min running.now) }
    ensures fitting { fits_of (Next ready.now running.now) result ≡ true }
    ensures told { result ≢ NoRoom }
{
    if let Some(thread) = least(ready) {
        return Reply::Run(thread);
    }
    match least(running) {
        Some(task) => Reply::Ended { task, code: 0 },
        None => Reply::Fault,
    }
}

/// The reply to an ask.
fn reply_to(alloc: Global, ask: &Ask) -> Reply
    ensures reply { result ≡ auto_reply ask.now }
    ensures fitting { fits_of ask.now result ≡ true }
    ensures told { result ≢ NoRoom }
{
    match ask {
        Ask::Read(_) => Reply::Missing,
        Ask::Stamp(_) => Reply::Stamp {
            there: false,
            size: 0,
            time: 0,
        },
        Ask::Sys(_) => Reply::SysDone {
            code: 0,
            out: Listed::new(alloc),
        },
        Ask::Start { .. } => Reply::Started,
        Ask::Next { ready, running } => next(ready.as_slice(), running.as_slice()),
        Ask::Write { .. } | Ask::Remove(_) | Ask::Out(_) | Ask::Err(_) | Ask::Save { .. } =>
            Reply::Done,
    }
}

#[tactic(auto, using(crate::proofs::Growing::growing))]
impl Host for Auto {
    ghost log = { λ s. s };

    /// Nothing is done outside, so the pair is stored with its reply at once.
    fn ask(&mut self, alloc: Global, ask: Ask) -> Result<Reply, NoMemory>
        ensures answered { IfOk result (λ reply. Answered self.old self.new ask reply) }
        ensures refused { OnErr result (FoundNoRoom self.old self.new ask) }
        ensures never_falls { faults self.old ≤ faults self.new }
        ensures reply { IfOk result (λ reply. reply ≡ auto_reply ask) }
        ensures kept { OnErr result (self.new ≡ self.old) }
    {
        let kept = reply_to(alloc, &ask);
        let reply = reply_to(alloc, &ask);
        self.trace.push((ask, kept))?;
        Ok(reply)
    }

    fn trace(&self) -> &Trace {
        &self.trace
    }
}
