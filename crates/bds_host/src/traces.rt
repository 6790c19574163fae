//! How a host stores a pair: its room first, its reply behind the act.
ghost use Rattle.std.specs.Prelude.{◌≡◌, ◌++◌, [], ◌∷◌, ◌<◌, length, OnOk, OnErr};
ghost use Rattle.bds_host.specs.Host.{Log};
ghost use Rattle.bds_host.specs.declared.asks.Ask.{Ask as AnAsk};
ghost use Rattle.bds_host.specs.declared.asks.Reply.{Reply as AReply};
ghost use Rattle.bds_host.specs.declared.asks.Reply.TheVariants.{NoRoom};

use crate::{Ask, Reply, Trace};
use bds_value::NoMemory;

/// Takes the room for a pair, which holds `NoRoom` until the reply is recorded.
pub fn record_ask(trace: &mut Trace, ask: Ask) -> Result<(), NoMemory>
    ensures ok { OnOk result (trace.new ≡ trace.old ++ (ask, NoRoom) ∷ []) }
    ensures err { OnErr result (trace.new ≡ trace.old) }
{
    trace.push((ask, Reply::NoRoom))
}

/// Puts another reply into the last pair. It takes no memory.
pub fn record_reply(trace: &mut Trace, reply: Reply)
    requires { 0 < length trace.old }
    ensures { (before : Log) (ask : AnAsk) (old : AReply) →
        trace.old ≡ before ++ (ask, old) ∷ [] → trace.new ≡ before ++ (ask, reply) ∷ [] }
{
    let count = trace.as_slice().len();
    let last = trace.at_mut(count - 1);
    last.1 = reply;
}

/// The ask of the last pair.
pub fn last_ask(trace: &Trace) -> &Ask
    requires { 0 < length trace.now }
    ensures { (before : Log) (ask : AnAsk) (reply : AReply) →
        trace.now ≡ before ++ (ask, reply) ∷ [] → result.now ≡ ask }
{
    let pairs = trace.as_slice();
    &pairs[pairs.len() - 1].0
}
