//! The outside of a run that `make` runs by itself.
ghost use Rattle.std.specs.Prelude.{◌≡◌, ◌≢◌, ◌≤◌, [], true, IfOk, OnErr};
ghost use Rattle.bds_host.specs.Asks.{fits as fits_of};
ghost use Rattle.bds_host.specs.Auto.{auto_reply};
ghost use Rattle.bds_host.specs.Host.{Answered, FoundNoRoom, faults};
ghost use Rattle.bds_host.specs.declared.asks.Ask.TheVariants.{Next};
ghost use Rattle.bds_host.specs.declared.asks.Reply.TheVariants.{NoRoom};
ghost use Rattle.bds_tools.specs.Made.{AllMade, IsReply, made_reply};
ghost use Rattle.bds_tools.specs.Make.{make_text};

use crate::scripts::make;
use bds_host::{Ask, Auto, Host, Reply, Trace, copy_numbers, copy_reply};
use bds_value::{Listed, NoMemory, Numbers};
use std::alloc::Global;
use std::marker::Model;

/// Answers each read with the script that is made from a number, and all else as if all went well and no file were there.
#[derive(Drop)]
pub struct Made {
    number: u32,
    trace: Trace,
}

impl Model for Made {
    ghost use Rattle.std.specs.Prelude.{◌≤◌};
    ghost use Rattle.bds_tools.specs.Made.{AllMade, Run};
    ghost use Rattle.bds_tools.specs.Make.{make_text};

    ghost Value = { Run };

    ghost view = { λ s. record { number = s.number; log = s.trace } };

    ghost invariant = { λ s. (1 ≤ s.number) × (s.number ≤ 10000) × AllMade (make_text s.number) s.trace };
}

impl Made {
    /// Takes no memory.
    pub fn new(alloc: Global, number: u32) -> Made
        requires { (1 ≤ number) × (number ≤ 10000) }
        ensures number { result.number ≡ number }
        ensures log { result.log ≡ [] }
    {
        Made {
            number,
            trace: Listed::new(alloc),
        }
    }

    /// The number from which the script is made.
    pub fn number(&self) -> u32
        ensures { result ≡ self.now.number }
    {
        self.number
    }

    /// Each ask has had its reply: a law, which does nothing.
    pub fn answers(&self)
        ensures { AllMade (make_text self.now.number) self.now.log }
    {
        let _trace = &self.trace;
    }
}

/// What an automatic host says of what goes on.
fn next(alloc: Global, ready: &Numbers, running: &Numbers) -> Result<Reply, NoMemory>
    ensures { IfOk result (IsReply [] (Next ready.now running.now)) }
{
    let ask = Ask::Next {
        ready: copy_numbers(alloc, ready)?,
        running: copy_numbers(alloc, running)?,
    };
    let mut auto = Auto::new(alloc);
    auto.ask(alloc, ask)
}

/// The reply to an ask.
fn reply_to(alloc: Global, number: u32, ask: &Ask) -> Result<Reply, NoMemory>
    requires { (1 ≤ number) × (number ≤ 10000) }
    ensures { IfOk result (IsReply (make_text number) ask.now) }
{
    match ask {
        Ask::Read(_) => Ok(Reply::Bytes(make(alloc, number)?)),
        Ask::Stamp(_) => Ok(Reply::Stamp {
            there: false,
            size: 0,
            time: 0,
        }),
        Ask::Sys(_) => Ok(Reply::SysDone {
            code: 0,
            out: Listed::new(alloc),
        }),
        Ask::Start { .. } => Ok(Reply::Started),
        Ask::Next { ready, running } => next(alloc, ready, running),
        Ask::Write { .. } | Ask::Remove(_) | Ask::Out(_) | Ask::Err(_) | Ask::Save { .. } => Ok(
            Reply::Done,
        ),
    }
}

impl Host for Made {
    ghost log = { λ s. s.log };

    /// Nothing is done outside, so the pair is stored with its reply at once.
    fn ask(&mut self, alloc: Global, ask: Ask) -> Result<Reply, NoMemory>
        ensures answered { IfOk result (λ reply. Answered self.old.log self.new.log ask reply) }
        ensures refused { OnErr result (FoundNoRoom self.old.log self.new.log ask) }
        ensures never_falls { faults self.old.log ≤ faults self.new.log }
        ensures reply { IfOk result (λ reply. reply ≡ made_reply (make_text self.old.number) ask) }
        ensures kept { OnErr result (self.new.log ≡ self.old.log) }
        ensures number { self.new.number ≡ self.old.number }
    {
        let kept = reply_to(alloc, self.number, &ask)?;
        let reply = copy_reply(alloc, &kept)?;
        self.trace.push((ask, kept))?;
        Ok(reply)
    }

    fn trace(&self) -> &Trace {
        &self.trace
    }
}
