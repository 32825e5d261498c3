//! A sink in memory whose room is limited, and whose writes are cut short and fail as planned.

ghost use Rattle.std.specs.Prelude.{◌≡◌, ◌<◌, ◌≤◌, ◌↔◌, ◌⊎◌, [], ◌++◌, length, take, min, option_map, string_bytes, None, IsErr, OnErr, OnOk, IfOk};
ghost use Rattle.edge_core.specs.Device.{Takes, SinkFails};
ghost use Rattle.edge_core.specs.MemSink.{mem_sink_state, room_left, LacksRoom};
ghost use Rattle.edge_core.specs.Plan.{plan_of, FailsNext, cut_to, after_call, after_fault, after_transfer};

use crate::device::{Failed, Sink};
use crate::plan::Plan;
use std::alloc::{AllocError, Global};
use std::marker::Model;
use std::snapshot::Snapshot;

/// A sink that keeps what it is given, takes short counts and fails where it is told to.
// Its name is known to contracts alone.
#[derive(Drop)]
pub struct MemSink {
    written: Vec<u8>,
    room: usize,
    plan: Plan,
    name: Snapshot<Option<String>>,
}

impl Model for MemSink {
    ghost use Rattle.std.specs.Prelude.{◌≤◌, option_map, string_bytes, vec_len, vec_capacity};
    ghost use Rattle.edge_core.specs.MemSink.{MemSinkState};

    ghost Value = { MemSinkState };

    ghost view = { λ sink. record {
      written = sink.written.items;
      room = sink.room;
      plan = sink.plan;
      name = option_map string_bytes sink.name.value;
    } };

    ghost invariant = { λ sink. (vec_len sink.written ≤ sink.room) × (sink.room ≤ vec_capacity sink.written) };
}

impl MemSink {
    /// A sink with room for `room` bytes, which are reserved here: no write asks for memory.
    ///
    /// The calls of `write` and `flush` are counted together from 1, and each whose number stands in `fails` fails.
    /// So does a write of some bytes where no room is left. The write at index i among those that don't fail takes
    /// at most `caps[i]` bytes, where 0 counts as 1. Past the end of `caps` there is no cap. The count of calls stops
    /// at `u64::MAX`, and no later call fails by its number.
    pub fn make(
        alloc: Global,
        room: usize,
        caps: Vec<usize>,
        fails: Vec<u64>,
    ) -> Result<Self, AllocError>
        ensures { IfOk result (λ sink.
            sink ≡ record { written = []; room = room; plan = plan_of caps.items fails.items; name = None }) }
    {
        Ok(MemSink {
            written: Vec::with_capacity(alloc, room)?,
            room,
            plan: Plan::new(caps, fails),
            name: Snapshot::of(&None),
        })
    }

    pub(crate) fn set_name(&mut self, name: &Option<String>)
        ensures { self.new ≡ record self.old { name = option_map string_bytes name.now } }
    {
        self.name = Snapshot::of(name);
    }

    /// What was written.
    pub fn bytes(&self) -> &[u8]
        ensures written { result.now ≡ self.now.written }
        ensures within { length self.now.written ≤ self.now.room }
    {
        self.written.as_slice()
    }

    pub(crate) fn faults(&self) -> u64
        ensures { result ≡ self.now.plan.faults }
    {
        self.plan.faults()
    }
}

impl Sink for MemSink {
    ghost state = { mem_sink_state };

    fn write(&mut self, piece: &[u8]) -> Result<usize, Failed>
        // As any sink.
        ensures some { IfOk result (λ n. n ≤ length piece.now) }
        ensures progress { IfOk result (λ n. 0 < length piece.now → 0 < n) }
        ensures taken { IfOk result (λ n.
            Takes (mem_sink_state self.old) (take n piece.now) (mem_sink_state self.new)) }
        ensures failed { OnErr result (SinkFails (mem_sink_state self.old) (mem_sink_state self.new)) }

        // As planned.
        ensures fails { IsErr result ↔ (LacksRoom self.old piece.now ⊎ FailsNext self.old.plan) }
        ensures amount { IfOk result (λ n.
            n ≡ cut_to self.old.plan.cuts (min (length piece.now) (room_left self.old))) }
        ensures after { IfOk result (λ n. self.new ≡ record self.old {
          written = self.old.written ++ take n piece.now;
          plan = after_transfer self.old.plan;
        }) }
        ensures after_failed { OnErr result (self.new ≡ record self.old { plan = after_fault self.old.plan }) }
        ensures within { length self.new.written ≤ self.new.room }
    {
        let room_left = self.room - self.written.len();
        self.plan.start_call(!piece.is_empty() && room_left == 0)?;
        let count = self.plan.use_cut(piece.len().min(room_left));
        let Ok(()) = self.written.extend_from_slice(&piece[..count]) else {
            unreachable!()
        };
        Ok(count)
    }

    fn flush(&mut self) -> Result<(), Failed>
        // As any sink.
        ensures taken { OnOk result (Takes (mem_sink_state self.old) [] (mem_sink_state self.new)) }
        ensures failed { OnErr result (SinkFails (mem_sink_state self.old) (mem_sink_state self.new)) }

        // As planned.
        ensures fails { IsErr result ↔ FailsNext self.old.plan }
        ensures after { OnOk result (self.new ≡ record self.old { plan = after_call self.old.plan }) }
        ensures after_failed { OnErr result (self.new ≡ record self.old { plan = after_fault self.old.plan }) }
    {
        self.plan.start_call(false)
    }
}
