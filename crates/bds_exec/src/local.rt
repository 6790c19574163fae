//! The host of a real run.
ghost use Rattle.std.specs.Prelude.{◌≡◌, ◌≢◌, ◌≤◌, [], true, None, Some, IfOk, OnErr};
ghost use Rattle.bds_host.specs.Asks.{fits};
ghost use Rattle.bds_host.specs.Host.{Answered, FoundNoRoom, faults};
ghost use Rattle.bds_host.specs.declared.asks.Reply.TheVariants.{Fault, Run};
ghost use Rattle.bds_exec.specs.Paths.{NamesText};
ghost use Rattle.bds_exec.specs.Serving.{Serves};
ghost use Rattle.bds_exec.specs.System.{Replies};
ghost use Rattle.bds_exec.specs.Turns.{last_run, chosen, TakesTurns};

use crate::streams::{print, print_error};
use crate::system::System;
use crate::turns::chosen_by;
use crate::{commands, files, runner};
use bds_host::{Ask, Host, Reply, Trace, copy_reply, last_ask, record_ask, record_reply};
use bds_value::{Listed, NoMemory};
use std::alloc::Global;
use std::marker::Model;

/// The real device. It stores its trace.
#[derive(Drop)]
pub struct LocalHost<'a, S: System> {
    system: &'a S,
    shell: Option<S::Shell>,
    last: Option<u32>,
    trace: Trace,
}

impl<'a, S: System> Model for LocalHost<'a, S> {
    ghost use Rattle.std.specs.Prelude.{◌≡◌};
    ghost use Rattle.bds_host.specs.Host.{Log};
    ghost use Rattle.bds_exec.specs.Turns.{last_run};

    ghost Value = { Log };

    ghost view = { λ s. s.trace };

    ghost invariant = { λ s. s.last ≡ last_run s.trace };
}

impl<'a, S: System> LocalHost<'a, S> {
    /// Takes no memory.
    pub fn new(system: &'a S, alloc: Global) -> LocalHost<'a, S>
        ensures { result ≡ [] }
    {
        LocalHost {
            system,
            shell: None,
            last: None,
            trace: Listed::new(alloc),
        }
    }
}

/// What an ask does outside. A `Next` waits for an end.
fn act<S: System>(
    alloc: Global,
    system: &S,
    shell: &mut Option<S::Shell>,
    ask: &Ask,
) -> Result<Reply, NoMemory>
    ensures served { Serves ask.now result }
    ensures told { NamesText ask.now → IfOk result (Replies S.answers ask.now) }
    ensures strange { (NamesText ask.now → ⊥) → IfOk result (λ reply. reply ≡ Fault) }
{
    match ask {
        Ask::Read(path) => files::read(alloc, system, path),
        Ask::Stamp(path) => files::stamp(system, path),
        Ask::Write { path, text } => files::write(system, path, text),
        Ask::Save { path, image } => files::save(alloc, system, path, image),
        Ask::Remove(path) => files::remove(system, path),
        Ask::Out(text) => print(system, text.as_slice()),
        Ask::Err(text) => print_error(system, text.as_slice()),
        Ask::Sys(command) => commands::run(alloc, system, command),
        Ask::Start { task, attempt, cmd } => runner::start(
            alloc,
            system,
            shell,
            (*task, *attempt),
            cmd,
        ),
        Ask::Next { running, .. } => runner::next_end(alloc, system, shell, running.as_slice()),
    }
}

/// Stores an ask, carries it out, and stores the reply.
#[tactic(auto, using(bds_host::proofs::Growing::growing, crate::proofs::LastRun::last_runs))]
fn answer<S: System>(
    alloc: Global,
    system: &S,
    shell: &mut Option<S::Shell>,
    trace: &mut Trace,
    ask: Ask,
) -> Result<Reply, NoMemory>
    ensures answered { IfOk result (λ reply. Answered trace.old trace.new ask reply) }
    ensures refused { OnErr result (FoundNoRoom trace.old trace.new ask) }
    ensures never_falls { faults trace.old ≤ faults trace.new }
    ensures stays { last_run trace.new ≡ last_run trace.old }
    ensures told { NamesText ask → IfOk result (Replies S.answers ask) }
    ensures strange { (NamesText ask → ⊥) → IfOk result (λ reply. reply ≡ Fault) }
{
    record_ask(trace, ask)?;
    let ask = last_ask(trace);
    let reply = act(alloc, system, shell, ask)?;
    let kept = copy_reply(alloc, &reply)?;
    record_reply(trace, kept);
    Ok(reply)
}

/// Stores that a thread goes on.
#[tactic(auto, using(bds_host::proofs::Growing::growing, crate::proofs::LastRun::last_runs))]
fn go_on(trace: &mut Trace, ask: Ask, thread: u32) -> Result<Reply, NoMemory>
    requires { fits ask (Run thread) ≡ true }
    ensures reply { IfOk result (λ reply. reply ≡ Run thread) }
    ensures answered { IfOk result (λ reply. Answered trace.old trace.new ask reply) }
    ensures refused { OnErr result (trace.new ≡ trace.old) }
    ensures never_falls { faults trace.old ≤ faults trace.new }
    ensures last { IfOk result (λ _. last_run trace.new ≡ Some thread) }
{
    trace.push((ask, Reply::Run(thread)))?;
    Ok(Reply::Run(thread))
}

impl<'a, S: System> Host for LocalHost<'a, S> {
    ghost log = { λ s. s };

    /// `turns` says which ready thread goes on; `told` that any other reply is the one that an answer of the system to the call for this ask
    /// gives; `strange` that a path or the command of a `Sys` that isn't text is a fault.
    fn ask(&mut self, alloc: Global, ask: Ask) -> Result<Reply, NoMemory>
        ensures answered { IfOk result (λ reply. Answered self.old self.new ask reply) }
        ensures refused { OnErr result (FoundNoRoom self.old self.new ask) }
        ensures never_falls { faults self.old ≤ faults self.new }
        ensures turns { IfOk result (λ reply. TakesTurns self.old ask reply) }
        ensures told { chosen (last_run self.old) ask ≡ None → NamesText ask → IfOk result (Replies S.answers ask) }
        ensures strange { (NamesText ask → ⊥) → IfOk result (λ reply. reply ≡ Fault) }
    {
        let Some(thread) = chosen_by(&ask, self.last) else {
            return answer(alloc, self.system, &mut self.shell, &mut self.trace, ask);
        };
        let reply = go_on(&mut self.trace, ask, thread)?;
        self.last = Some(thread);
        Ok(reply)
    }

    fn trace(&self) -> &Trace {
        &self.trace
    }
}
