// A sink in memory, in which puts can be made to fail.
ghost use Rattle.std.specs.Prelude.{◌≡◌, [], ◌++◌, OnOk, OnErr, IsErr, IsSome, None};
ghost use Rattle.std.specs.Bool.{OnFalse};
ghost use Rattle.std.specs.FinMap as map;
ghost use Rattle.cs_io.specs.Memory.{is_planned};
ghost use Rattle.cs_io.specs.Sinks.{appended, FailsToPut};
ghost use Rattle.cs_io.specs.MemStores.{one_more, next_plan};
ghost use Rattle.cs_io.specs.MemSinks.{sink_state, HasCause, IsCounted};

use crate::memory::{front, plan_at, plan_call};
use crate::sink::Sink;
use crate::store::{Failed, NoMemory};
use std::alloc::Global;
use std::marker::Model;

/// Bytes in memory, which are told.
#[derive(Drop)]
pub struct MemSink {
    written: Vec<u8>,
    plan: Vec<(u64, usize)>,
    calls: u64,
    faults: u64,
    dry: u64,
}

impl Model for MemSink {
    ghost use Rattle.cs_io.specs.MemSinks.{MemSinkState, sink_code};

    ghost Value = { MemSinkState };

    ghost coded = { sink_code };

    ghost use Rattle.cs_io.specs.Memory.{plan_of};

    ghost view = { λ s. record {
      written = s.written.items;
      faults = s.faults;
      plan = plan_of s.plan.items;
      calls = s.calls;
      dry = s.dry;
    } };
}

impl MemSink {
    /// A sink without bytes in which no put is to fail.
    pub fn new(alloc: Global) -> Self
        ensures { result ≡ record { written = []; faults = 0; plan = map.empty; calls = 0; dry = 0 } }
    {
        MemSink {
            written: Vec::new(alloc),
            plan: Vec::new(alloc),
            calls: 0,
            faults: 0,
            dry: 0,
        }
    }

    /// Lets the put of this number fail, counted from 1, after `keep` bytes. It takes the place of an earlier
    /// plan for that put; a refusal leaves the sink unchanged.
    pub fn fail_at(&mut self, call: u64, keep: usize) -> Result<(), NoMemory>
        ensures ok { OnOk result (self.new ≡ record self.old { plan = map.insert self.old.plan call keep }) }
        ensures err { OnErr result (self.new ≡ self.old) }
    {
        match plan_call(&mut self.plan, call, keep) {
            Ok(()) => Ok(()),
            Err(_) => Err(NoMemory),
        }
    }

    /// What was put.
    pub fn bytes(&self) -> &[u8]
        ensures { result.now ≡ self.now.written }
    {
        &self.written
    }

    /// How many puts found no memory; it stays at 2^64 - 1.
    pub fn dry(&self) -> u64
        ensures { result ≡ self.now.dry }
    {
        self.dry
    }

    // Counts a put, and says whether it is to fail, and after how many bytes.
    fn next_call(&mut self) -> Option<usize>
        ensures counted { self.new ≡ record self.old { calls = one_more self.old.calls } }
        ensures planned { result ≡ next_plan self.old.plan self.old.calls }
        ensures unplanned { OnFalse (is_planned self.old.plan) (result ≡ None) }
    {
        self.calls = self.calls.saturating_add(1);
        plan_at(&self.plan, self.calls)
    }
}

impl Sink for MemSink {
    ghost state = { sink_state };

    fn put(&mut self, bytes: &[u8]) -> Result<(), Failed>
        ensures ok { OnOk result (sink_state self.new
            ≡ record (sink_state self.old) { written = appended (sink_state self.old).written bytes.now }) }
        ensures wrote { OnOk result (self.new ≡ record self.old {
          written = self.old.written ++ bytes.now;
          calls = one_more self.old.calls;
        }) }
        ensures err { OnErr result (FailsToPut (sink_state self.old) (sink_state self.new) bytes.now) }

        // A put fails only where it was to fail, or where there is no memory.
        ensures cause { OnErr result (HasCause self.old self.new bytes.now) }
        ensures planned { IsSome (next_plan self.old.plan self.old.calls) → IsErr result }
        ensures counted { OnErr result (IsCounted self.old self.new) }
    {
        let planned = self.next_call();
        let kept = match planned {
            Some(keep) => front(bytes, keep),
            None => bytes,
        };
        let put = self.written.extend_from_slice(kept);
        if put.is_err() {
            self.dry = self.dry.saturating_add(1);
        }
        if planned.is_none() && put.is_ok() {
            return Ok(());
        }
        self.faults = self.faults.saturating_add(1);
        Err(Failed)
    }
}
