//! A state: how it begins, and how a thread is added.
ghost use Rattle.std.specs.Prelude.{◌≡◌, ℕ, ◌<◌, ◌≤◌, ◌∷◌, [], length, map, slice_get, Some, IfOk};
ghost use Rattle.bds_value.specs.declared.TheConstants.{MAX_TEXT};
ghost use Rattle.bds_value.specs.Value.{default_of};
ghost use Rattle.bds_code.specs.declared.unit.Function.{Function};
ghost use Rattle.bds_code_frames.specs.declared.thread.Thread.{Thread as AnyThread};
ghost use Rattle.bds_state_threads.specs.Made.{IsBegun};
ghost use Rattle.bds_verify.specs.Threads.{IsThread, Typed};
ghost use Rattle.bds_state.specs.Changes.{IsOpening, IsLive, Spawns};
ghost use Rattle.bds_state.specs.MadeBy.{made_by};
ghost use Rattle.bds_state.specs.Ready.{next_ready};
ghost use Rattle.bds_state.specs.Valid.{IsCountedThread, IsValid};

use crate::held::look_at_all;
use crate::holders::Holders;
use crate::made::{put_tasks, put_threads};
use crate::ready::next_ready;
use bds_code::{Ids, Thread};
use bds_rules::RuleTable;
use bds_state_threads::{Threads, first_thread, new_thread};
use bds_tasks::{AddFault, TaskTable};
use bds_value::{ByteText, Items, Listed, MAX_THREADS, NoMemory, copy_items};
use bds_verify::Verified;
use std::alloc::Global;
use std::marker::Model;

/// The whole state of a run: the unit, its threads numbered from 0, the tasks and rules that they
/// made, and the path of the script. It is valid.
#[derive(Drop)]
pub struct State {
    pub unit: Verified,
    pub threads: Threads,
    pub tasks: TaskTable,
    pub rules: RuleTable,
    pub path: ByteText,
    /// Which threads aren't asked whether they are ready. It is no part of the value.
    pub held: Holders,
}

impl Model for State {
    ghost use Rattle.std.specs.Prelude.{ℕ, List, refl};
    ghost use Rattle.std.specs.Coded.{code_by, coded_list, coded_ℕ, coded×};
    ghost use Rattle.bds_code.specs.declared.unit.Unit.{Unit as CodeUnit};
    ghost use Rattle.bds_code.specs.contracts.unit.Unit as code_unit;
    ghost use Rattle.bds_code_frames.specs.declared.thread.Thread.{Thread as AnyThread};
    ghost use Rattle.bds_code_frames.specs.contracts.thread.Thread as thread;
    ghost use Rattle.bds_rules.specs.declared.rule.Rule.{Rule};
    ghost use Rattle.bds_rules.specs.contracts.rule.Rule as rule;
    ghost use Rattle.bds_tasks.specs.declared.task.Task.{Task};
    ghost use Rattle.bds_tasks.specs.contracts.task.Task as task;
    ghost use Rattle.bds_state.specs.Held.{AreHeld};
    ghost use Rattle.bds_state.specs.Parts.{Parts};
    ghost use Rattle.bds_state.specs.Valid.{IsValid};

    ghost Value = { Parts };

    ghost coded = { code_by (CodeUnit × (List AnyThread × (List Task × (List Rule × List ℕ))))
        (coded× code_unit.the_row.coded (coded× (coded_list thread.the_row.coded)
        (coded× (coded_list task.the_row.coded) (coded× (coded_list rule.the_row.coded) (coded_list coded_ℕ)))))
        (λ s. (s.unit, (s.threads, (s.tasks, (s.rules, s.path)))))
        (λ p. record { unit = p.0; threads = p.1.0; tasks = p.1.1.0; rules = p.1.1.1.0; path = p.1.1.1.1 })
        (λ _. refl) };

    ghost view = { λ s. record { unit = s.unit; threads = s.threads; tasks = s.tasks; rules = s.rules; path = s.path } };

    ghost invariant = { λ s. IsValid (record { unit = s.unit; threads = s.threads; tasks = s.tasks; rules = s.rules; path = s.path })
        × AreHeld s.threads s.tasks s.held };
}

/// The main thread alone.
fn main_thread(alloc: Global, unit: &Verified) -> Result<Threads, NoMemory>
    ensures { IfOk result (λ threads. (t : AnyThread) × (threads ≡ t ∷ [])
        × IsBegun unit.now 0 0 [] (map default_of unit.now.globals) t × IsThread unit.now t × IsCountedThread t) }
{
    let main = first_thread(alloc, unit)?;
    main.frames.are_counted();
    let mut threads = Listed::new(alloc);
    threads.push(main)?;
    Ok(threads)
}

/// A thread that thread `maker` makes.
fn made_by(
    alloc: Global,
    unit: &Verified,
    threads: &[Thread],
    maker: u32,
    function: u32,
    args: Items,
) -> Result<Thread, NoMemory>
    requires valid { (n : ℕ) (t : AnyThread) → slice_get threads.now n ≡ Some t → IsThread unit.now t }
    requires maker { IsLive threads.now maker }
    requires function { function < length unit.now.functions }
    requires args { (f : Function) → slice_get unit.now.functions function ≡ Some f → Typed args f.params }
    ensures { IfOk result (λ t. (from : AnyThread) × (slice_get threads.now maker ≡ Some from)
        × IsBegun unit.now maker function args from.globals t × IsThread unit.now t × IsCountedThread t) }
{
    let globals = copy_items(alloc, &threads[maker as usize].globals)?;
    let made = new_thread(alloc, unit, maker, function, args, globals)?;
    made.frames.are_counted();
    Ok(made)
}

impl State {
    /// The state with which a run of a unit begins: the main thread stands at place 0 of function 0.
    pub fn begin(alloc: Global, unit: Verified, path: ByteText) -> Result<State, NoMemory>
        requires { length path ≤ MAX_TEXT }
        ensures { IfOk result (λ state. IsOpening unit path state) }
    {
        let threads = main_thread(alloc, &unit)?;
        let tasks = TaskTable::new(alloc);
        let rules = RuleTable::new(alloc);
        tasks.are_tasks();
        rules.are_rules();
        Ok(State {
            unit,
            threads,
            tasks,
            rules,
            path,
            held: Holders::new(alloc),
        })
    }

    /// Adds a ready thread that another one made, at the first place of a function: with these arguments,
    /// and with copies of its maker's globals. It gives the number of the thread; `TooMany` where there
    /// are as many threads as there may be. A refused call drops the arguments and leaves the state as it
    /// was.
    pub fn spawn(
        &mut self,
        alloc: Global,
        maker: u32,
        function: u32,
        args: Items,
    ) -> Result<u32, AddFault>
        requires maker { IsLive self.old.threads maker }
        requires function { function < length self.old.unit.functions }
        requires args { (f : Function) → slice_get self.old.unit.functions function ≡ Some f → Typed args f.params }
        ensures { Spawns maker function args self.old self.new result }
    {
        let count = self.threads.len();
        if count as u64 >= MAX_THREADS {
            return Err(AddFault::TooMany(count as u32));
        }
        let made = made_by(
            alloc,
            &self.unit,
            self.threads.as_slice(),
            maker,
            function,
            args,
        )?;
        self.threads.push(made)?;
        Ok(count as u32)
    }

    /// The least thread above `after`, or of all, that is ready. It takes no memory.
    pub fn next_ready(&self, after: Option<u32>) -> Option<u32>
        ensures { result ≡ next_ready after self.now }
    {
        next_ready(self.threads.as_slice(), &self.tasks, &self.held, after)
    }

    /// Looks at each thread once, so that those that wait aren't asked at each turn, as behind a load. The state stays
    /// as
    /// it is.
    pub fn look_at_threads(&mut self)
        ensures { self.new ≡ self.old }
    {
        look_at_all(self.threads.as_slice(), &self.tasks, &mut self.held);
    }

    /// All tasks and threads that a thread made, the tasks first, each kind in rising order.
    pub fn made_by(&self, alloc: Global, thread: u32) -> Result<Ids, NoMemory>
        ensures { IfOk result (λ ids. ids ≡ made_by thread self.now) }
    {
        self.tasks.are_tasks();
        let mut ids = Listed::new(alloc);
        put_tasks(&mut ids, self.tasks.as_slice(), thread)?;
        put_threads(&mut ids, self.threads.as_slice(), thread)?;
        Ok(ids)
    }

    /// Every state is valid: a law, which does nothing.
    pub fn is_valid(&self)
        ensures { IsValid self.now }
    {
        let _path = &self.path;
    }
}
