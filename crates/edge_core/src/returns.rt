//! The devices of doors in memory that are out or came back.

ghost use Rattle.std.specs.Prelude.{◌≡◌, ◌≢◌, ◌+◌, ◌-◌, ◌∷◌, ◌++◌, [], map, OnOk, OnErr};
ghost use Rattle.edge_core.specs.Doors.{CountsFaults, an_inlet, an_outlet};
ghost use Rattle.edge_core.specs.MemSink.{mem_sink_state};
ghost use Rattle.edge_core.specs.MemSource.{mem_source_state};
ghost use Rattle.edge_core.specs.Returns.{counted, nothing_out, sinks_among};

use crate::mem_sink::MemSink;
use crate::mem_source::MemSource;
use std::alloc::{AllocError, Global};
use std::marker::Model;
use std::snapshot::Snapshot;

// Which kind of device came back. Contracts also see the device as it was then.
#[derive(Drop)]
enum Returned {
    Inlet(Snapshot<MemSource>),
    Outlet(Snapshot<MemSink>),
}

// There is room for all that is out to come back.
#[derive(Drop)]
pub(crate) struct Returns {
    devices: Vec<Returned>,
    outlets: Vec<MemSink>,
    inlets_out: usize,
    outlets_out: usize,
    faults: u64,
}

impl Model for Returns {
    ghost use Rattle.std.specs.Prelude.{◌≡◌, ◌+◌, ◌≤◌, map, vec_len, vec_capacity};
    ghost use Rattle.edge_core.specs.MemSink.{mem_sink_state};
    ghost use Rattle.edge_core.specs.Returns.{ReturnsState, device, sinks_among};

    ghost Value = { ReturnsState };

    ghost view = { λ returns. record {
      returned = map device returns.devices.items;
      outlets = returns.outlets.items;
      inlets_out = returns.inlets_out;
      outlets_out = returns.outlets_out;
      faults = returns.faults;
    } };

    ghost invariant = { λ returns.
        (vec_len returns.devices + (returns.inlets_out + returns.outlets_out) ≤ vec_capacity returns.devices)
        × (vec_len returns.outlets + returns.outlets_out ≤ vec_capacity returns.outlets)
        × (sinks_among (map device returns.devices.items) ≡ map mem_sink_state returns.outlets.items) };
}

impl Returns {
    pub(crate) fn new(alloc: Global) -> Self
        ensures { result ≡ nothing_out }
    {
        Returns {
            devices: Vec::new(alloc),
            outlets: Vec::new(alloc),
            inlets_out: 0,
            outlets_out: 0,
            faults: 0,
        }
    }

    // The sinks that came back, in their order.
    pub(crate) fn outlets(&self) -> &[MemSink]
        ensures outlets { result.now ≡ self.now.outlets }
        ensures returned { map mem_sink_state self.now.outlets ≡ sinks_among self.now.returned }
    {
        self.outlets.as_slice()
    }

    pub(crate) fn lend_inlet(&mut self) -> Result<(), AllocError>
        ensures lent { OnOk result (self.new ≡ record self.old { inlets_out = self.old.inlets_out + 1 }) }
        ensures kept { OnErr result (self.new ≡ self.old) }
    {
        let Some(devices) = (self.inlets_out + self.outlets_out).checked_add(1) else {
            return Err(AllocError);
        };
        self.devices.reserve(devices)?;
        self.inlets_out += 1;
        Ok(())
    }

    pub(crate) fn lend_outlet(&mut self) -> Result<(), AllocError>
        ensures lent { OnOk result (self.new ≡ record self.old { outlets_out = self.old.outlets_out + 1 }) }
        ensures kept { OnErr result (self.new ≡ self.old) }
    {
        let Some(devices) = (self.inlets_out + self.outlets_out).checked_add(1) else {
            return Err(AllocError);
        };
        self.devices.reserve(devices)?;
        self.outlets.reserve(self.outlets_out + 1)?;
        self.outlets_out += 1;
        Ok(())
    }

    pub(crate) fn take_inlet(&mut self, inlet: MemSource)
        requires { self.old.inlets_out ≢ 0 }
        ensures counted { CountsFaults self.old.faults inlet.plan.faults self.new.faults }
        ensures returned { self.new ≡ record self.old {
          returned = self.old.returned ++ an_inlet (mem_source_state inlet) ∷ [];
          inlets_out = self.old.inlets_out - 1;
          faults = counted inlet.plan.faults self.old.faults;
        } }
    {
        self.devices
            .push_reserved(Returned::Inlet(Snapshot::of(&inlet)));
        self.inlets_out -= 1;
        self.count_faults(inlet.faults());
    }

    pub(crate) fn take_outlet(&mut self, outlet: MemSink)
        requires { self.old.outlets_out ≢ 0 }
        ensures counted { CountsFaults self.old.faults outlet.plan.faults self.new.faults }
        ensures returned { self.new ≡ record self.old {
          returned = self.old.returned ++ an_outlet (mem_sink_state outlet) ∷ [];
          outlets = self.old.outlets ++ outlet ∷ [];
          outlets_out = self.old.outlets_out - 1;
          faults = counted outlet.plan.faults self.old.faults;
        } }
    {
        let faults = outlet.faults();
        self.devices
            .push_reserved(Returned::Outlet(Snapshot::of(&outlet)));
        self.outlets.push_reserved(outlet);
        self.outlets_out -= 1;
        self.count_faults(faults);
    }

    fn count_faults(&mut self, faults: u64)
        ensures counted { CountsFaults self.old.faults faults self.new.faults }
        ensures after { self.new ≡ record self.old { faults = counted faults self.old.faults } }
    {
        if faults != 0 {
            self.faults = self.faults.saturating_add(1);
        }
    }
}
