//! Doors behind which there is nothing.

ghost use Rattle.std.specs.Prelude.{◌≡◌, ◌≢◌, IsErrOf, IsTrue, OnOk, IfOk, IfErr};
ghost use Rattle.edge_core.specs.Plan.{raised};
ghost use Rattle.edge_core.specs.Returns.{counted};
ghost use Rattle.edge_core.specs.Doors.{OpensInlet, OpensOutlet, Listens, Accepts, FailsWith, Refuses, TakesBackInlet, TakesBackOutlet, shut};
ghost use Rattle.edge_core.specs.NoDoors.{no_doors_state};
ghost use Rattle.edge_core.specs.WholeSource.{whole_source_state};
ghost use Rattle.edge_core.specs.MemSink.{mem_sink_state};

use crate::doors::{DoorError, Doors};
use crate::mem_sink::MemSink;
use crate::whole_source::WholeSource;
use std::alloc::Global;

/// Doors that fail at each opening call.
// That they listen, and that a device is out, are conditions of `Doors`, so both are fields. No opening changes them.
#[derive(Debug, Drop)]
pub struct NoDoors {
    refusals: u64,
    faults: u64,
    is_listening: bool,
    inlets_out: u64,
    outlets_out: u64,
}

impl NoDoors {
    /// Doors that have refused nothing yet.
    pub fn new() -> Self
        ensures { no_doors_state result ≡ shut }
    {
        NoDoors {
            refusals: 0,
            faults: 0,
            is_listening: false,
            inlets_out: 0,
            outlets_out: 0,
        }
    }

    fn refuse(&mut self) -> DoorError
        ensures counted { self.new ≡ record self.old { refusals = raised self.old.refusals } }
        ensures failed { result ≡ DoorError.Failed }
        ensures risen { Refuses (no_doors_state self.old) (no_doors_state self.new) }
    {
        self.refusals = self.refusals.saturating_add(1);
        DoorError::Failed
    }
}

impl Doors for NoDoors {
    type Inlet = WholeSource;

    type Outlet = MemSink;

    ghost state = { no_doors_state };

    fn inlet(&mut self, _alloc: Global, name: &str) -> Result<WholeSource, DoorError>
        // As any doors.
        ensures opened { IfOk result (λ inlet.
            OpensInlet (no_doors_state self.old) name.now (whole_source_state inlet) (no_doors_state self.new)) }
        ensures refused { IfErr result (λ error.
            FailsWith error (no_doors_state self.old) (no_doors_state self.new)) }

        ensures failed { IsErrOf result DoorError.Failed }
        ensures counted { (no_doors_state self.new).refusals ≡ raised (no_doors_state self.old).refusals }
    {
        Err(self.refuse())
    }

    fn outlet(&mut self, _alloc: Global, name: &str) -> Result<MemSink, DoorError>
        // As any doors.
        ensures opened { IfOk result (λ outlet.
            OpensOutlet (no_doors_state self.old) name.now (mem_sink_state outlet) (no_doors_state self.new)) }
        ensures refused { IfErr result (λ error.
            FailsWith error (no_doors_state self.old) (no_doors_state self.new)) }

        ensures failed { IsErrOf result DoorError.Failed }
        ensures counted { (no_doors_state self.new).refusals ≡ raised (no_doors_state self.old).refusals }
    {
        Err(self.refuse())
    }

    fn listen(&mut self, _alloc: Global, address: &str) -> Result<(), DoorError>
        // As any doors.
        ensures opened { OnOk result (Listens (no_doors_state self.old) (no_doors_state self.new)) }
        ensures refused { IfErr result (λ error.
            FailsWith error (no_doors_state self.old) (no_doors_state self.new)) }

        ensures failed { IsErrOf result DoorError.Failed }
        ensures counted { (no_doors_state self.new).refusals ≡ raised (no_doors_state self.old).refusals }
    {
        Err(self.refuse())
    }

    fn accept(&mut self, _alloc: Global) -> Result<WholeSource, DoorError>
        // As any doors.
        requires listening { IsTrue (no_doors_state self.old).is_listening }
        ensures opened { IfOk result (λ inlet.
            Accepts (no_doors_state self.old) (whole_source_state inlet) (no_doors_state self.new)) }
        ensures refused { IfErr result (λ error.
            FailsWith error (no_doors_state self.old) (no_doors_state self.new)) }

        ensures failed { IsErrOf result DoorError.Failed }
        ensures counted { (no_doors_state self.new).refusals ≡ raised (no_doors_state self.old).refusals }
    {
        Err(self.refuse())
    }

    fn connect(&mut self, _alloc: Global, address: &str) -> Result<MemSink, DoorError>
        // As any doors.
        ensures opened { IfOk result (λ outlet.
            OpensOutlet (no_doors_state self.old) address.now (mem_sink_state outlet) (no_doors_state self.new)) }
        ensures refused { IfErr result (λ error.
            FailsWith error (no_doors_state self.old) (no_doors_state self.new)) }

        ensures failed { IsErrOf result DoorError.Failed }
        ensures counted { (no_doors_state self.new).refusals ≡ raised (no_doors_state self.old).refusals }
    {
        Err(self.refuse())
    }

    fn give_inlet(&mut self, inlet: WholeSource)
        requires out { (no_doors_state self.old).inlets_out ≢ 0 }
        ensures returned { TakesBackInlet (no_doors_state self.old) (whole_source_state inlet) (no_doors_state self.new) }
    {
        self.inlets_out -= 1;
    }

    fn give_outlet(&mut self, outlet: MemSink)
        requires out { (no_doors_state self.old).outlets_out ≢ 0 }
        ensures returned { TakesBackOutlet (no_doors_state self.old) (mem_sink_state outlet) (no_doors_state self.new) }

        ensures counted { (no_doors_state self.new).faults ≡ counted outlet.plan.faults (no_doors_state self.old).faults }
    {
        self.outlets_out -= 1;
        if outlet.faults() != 0 {
            self.faults = self.faults.saturating_add(1);
        }
    }
}
