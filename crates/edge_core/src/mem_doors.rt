//! Doors in memory, whose openings fail as planned.

ghost use Rattle.std.specs.Prelude.{◌≡◌, ◌≢◌, ◌↔◌, ◌⊎◌, ◌-◌, ◌∷◌, ◌++◌, [], true, false, All, drop, map, option_map, slice_get, string_bytes, IsErrOf, IsTrue, OnOk, IfOk, IfErr};
ghost use Rattle.edge_core.specs.Doors.{OpensInlet, OpensOutlet, Listens, Accepts, FailsWith, TakesBackInlet, TakesBackOutlet, an_inlet, an_outlet};
ghost use Rattle.edge_core.specs.MemDoors.{all_differ, mem_doors_state, plan_after, with_inlet_out, with_outlet_out, IsFresh, name_of, unopened};
ghost use Rattle.edge_core.specs.MemSink.{mem_sink_state, opened_by};
ghost use Rattle.edge_core.specs.MemSource.{mem_source_state};
ghost use Rattle.edge_core.specs.Names.{IsFreshSource, IsFreshSink, inlet_of, outlet_of, named_with, without_inlet, without_outlet};
ghost use Rattle.edge_core.specs.Plan.{plan_of, FailsNext, after_call};
ghost use Rattle.edge_core.specs.Returns.{counted, nothing_out, sinks_among};

use crate::doors::{DoorError, Doors};
use crate::mem_sink::MemSink;
use crate::mem_source::MemSource;
use crate::names::Names;
use crate::plan::Plan;
use crate::returns::Returns;
use std::alloc::{AllocError, Global};
use std::collections::VecDeque;
use std::marker::Model;

/// Doors whose devices were handed in, and that keep the sinks that come back.
#[derive(Drop)]
pub struct MemDoors {
    names: Names,
    accepted: VecDeque<MemSource>,
    connected: VecDeque<MemSink>,
    is_listening: bool,
    plan: Plan,
    returns: Returns,
}

impl Model for MemDoors {
    ghost use Rattle.std.specs.Prelude.{All};
    ghost use Rattle.edge_core.specs.MemDoors.{MemDoorsState};
    ghost use Rattle.edge_core.specs.Names.{IsFreshSource, IsFreshSink, IsUntouched};

    ghost Value = { MemDoorsState };

    ghost view = { λ doors. record {
      names = doors.names;
      accepted = doors.accepted.items;
      connected = doors.connected.items;
      is_listening = doors.is_listening;
      plan = doors.plan;
      returns = doors.returns;
    } };

    ghost invariant = { λ doors.
        All IsUntouched doors.names × All IsFreshSource doors.accepted.items × All IsFreshSink doors.connected.items };
}

impl MemDoors {
    /// Doors that hand out each device once: a name its source and its sink, and a connection the next of
    /// `accepted` or of `connected`. An opening fails where there is no such device left.
    ///
    /// The five opening calls are counted together from 1, and each whose number stands in `fails` fails. The count
    /// of calls stops at `u64::MAX`, and no later call fails by its number.
    pub fn make(
        alloc: Global,
        named: Vec<(String, MemSource, MemSink)>,
        accepted: Vec<MemSource>,
        connected: Vec<MemSink>,
        fails: Vec<u64>,
    ) -> Result<Self, AllocError>
        requires named_fresh { All IsFresh named.items }
        requires accepted_fresh { All IsFreshSource accepted.items }
        requires connected_fresh { All IsFreshSink connected.items }
        requires names_differ { IsTrue (all_differ (map name_of named.items)) }
        ensures made { IfOk result (λ doors. doors ≡ record {
          names = map named_with named.items;
          accepted = accepted.items;
          connected = connected.items;
          is_listening = false;
          plan = plan_of [] fails.items;
          returns = nothing_out;
        }) }
        ensures told { IfOk result (λ doors. mem_doors_state doors ≡ unopened named.items accepted.items) }
    {
        Ok(MemDoors {
            names: Names::make(alloc, named)?,
            accepted: VecDeque::from_vec(accepted),
            connected: VecDeque::from_vec(connected),
            is_listening: false,
            plan: Plan::new(Vec::new(alloc), fails),
            returns: Returns::new(alloc),
        })
    }

    /// The sinks that came back, in the order in which they did.
    pub fn outlets(&self) -> &[MemSink]
        ensures outlets { result.now ≡ self.now.returns.outlets }
        ensures returned { map mem_sink_state result.now ≡ sinks_among self.now.returns.returned }
    {
        self.returns.outlets()
    }
}

// A name as a sink takes it, of which it keeps what contracts see.
fn seen(alloc: Global, name: &str) -> Result<Option<String>, AllocError>
    ensures { IfOk result (λ seen. option_map string_bytes seen ≡ Some name.now) }
{
    Ok(Some(String::from_str(alloc, name)?))
}

impl Doors for MemDoors {
    type Inlet = MemSource;

    type Outlet = MemSink;

    ghost state = { mem_doors_state };

    fn inlet(&mut self, _alloc: Global, name: &str) -> Result<MemSource, DoorError>
        // As any doors.
        ensures opened { IfOk result (λ inlet.
            OpensInlet (mem_doors_state self.old) name.now (mem_source_state inlet) (mem_doors_state self.new)) }
        ensures refused { IfErr result (λ error.
            FailsWith error (mem_doors_state self.old) (mem_doors_state self.new)) }

        // As planned.
        ensures fails { IsErrOf result DoorError.Failed ↔ (FailsNext self.old.plan ⊎ (inlet_of name.now self.old.names ≡ None)) }
        ensures gives { IfOk result (λ inlet. inlet_of name.now self.old.names ≡ Some inlet) }
        ensures after { OnOk result (self.new ≡ record self.old {
          names = without_inlet name.now self.old.names;
          plan = after_call self.old.plan;
          returns = with_inlet_out self.old.returns;
        }) }
        ensures after_refusal { IfErr result (λ error. self.new ≡ record self.old { plan = plan_after error self.old.plan }) }
    {
        let is_there = self.names.has_inlet(name);
        let Ok(()) = self.plan.start_call(!is_there) else {
            return Err(DoorError::Failed);
        };
        let Ok(()) = self.returns.lend_inlet() else {
            return Err(DoorError::OutOfMemory);
        };
        match self.names.take_inlet(name) {
            Some(inlet) => Ok(inlet),
            None => unreachable!(),
        }
    }

    fn outlet(&mut self, alloc: Global, name: &str) -> Result<MemSink, DoorError>
        // As any doors.
        ensures opened { IfOk result (λ outlet.
            OpensOutlet (mem_doors_state self.old) name.now (mem_sink_state outlet) (mem_doors_state self.new)) }
        ensures refused { IfErr result (λ error.
            FailsWith error (mem_doors_state self.old) (mem_doors_state self.new)) }

        // As planned.
        ensures fails { IsErrOf result DoorError.Failed ↔ (FailsNext self.old.plan ⊎ (outlet_of name.now self.old.names ≡ None)) }
        ensures gives { IfOk result (λ outlet. option_map (opened_by name.now) (outlet_of name.now self.old.names) ≡ Some outlet) }
        ensures after { OnOk result (self.new ≡ record self.old {
          names = without_outlet name.now self.old.names;
          plan = after_call self.old.plan;
          returns = with_outlet_out self.old.returns;
        }) }
        ensures after_refusal { IfErr result (λ error. self.new ≡ record self.old { plan = plan_after error self.old.plan }) }
    {
        let is_there = self.names.has_outlet(name);
        let Ok(()) = self.plan.start_call(!is_there) else {
            return Err(DoorError::Failed);
        };
        let Ok(name_seen) = seen(alloc, name) else {
            return Err(DoorError::OutOfMemory);
        };
        let Ok(()) = self.returns.lend_outlet() else {
            return Err(DoorError::OutOfMemory);
        };
        match self.names.take_outlet(name) {
            Some(mut outlet) => {
                outlet.set_name(&name_seen);
                Ok(outlet)
            }
            None => unreachable!(),
        }
    }

    fn listen(&mut self, _alloc: Global, address: &str) -> Result<(), DoorError>
        // As any doors.
        ensures opened { OnOk result (Listens (mem_doors_state self.old) (mem_doors_state self.new)) }
        ensures refused { IfErr result (λ error.
            FailsWith error (mem_doors_state self.old) (mem_doors_state self.new)) }

        // As planned.
        ensures fails { IsErrOf result DoorError.Failed ↔ FailsNext self.old.plan }
        ensures after { OnOk result (self.new ≡ record self.old { is_listening = true; plan = after_call self.old.plan }) }
        ensures after_refusal { IfErr result (λ error. self.new ≡ record self.old { plan = plan_after error self.old.plan }) }
    {
        let Ok(()) = self.plan.start_call(false) else {
            return Err(DoorError::Failed);
        };
        self.is_listening = true;
        Ok(())
    }

    fn accept(&mut self, _alloc: Global) -> Result<MemSource, DoorError>
        // As any doors.
        requires listening { IsTrue (mem_doors_state self.old).is_listening }
        ensures opened { IfOk result (λ inlet.
            Accepts (mem_doors_state self.old) (mem_source_state inlet) (mem_doors_state self.new)) }
        ensures refused { IfErr result (λ error.
            FailsWith error (mem_doors_state self.old) (mem_doors_state self.new)) }

        // As planned.
        ensures fails { IsErrOf result DoorError.Failed ↔ (FailsNext self.old.plan ⊎ (self.old.accepted ≡ [])) }
        ensures gives { IfOk result (λ inlet. self.old.accepted ≡ inlet ∷ self.new.accepted) }
        ensures after { OnOk result (self.new ≡ record self.old {
          accepted = self.new.accepted;
          plan = after_call self.old.plan;
          returns = with_inlet_out self.old.returns;
        }) }
        ensures after_refusal { IfErr result (λ error. self.new ≡ record self.old { plan = plan_after error self.old.plan }) }
    {
        let is_there = !self.accepted.is_empty();
        let Ok(()) = self.plan.start_call(!is_there) else {
            return Err(DoorError::Failed);
        };
        let Ok(()) = self.returns.lend_inlet() else {
            return Err(DoorError::OutOfMemory);
        };
        match self.accepted.pop_front() {
            Some(inlet) => Ok(inlet),
            None => unreachable!(),
        }
    }

    fn connect(&mut self, alloc: Global, address: &str) -> Result<MemSink, DoorError>
        // As any doors.
        ensures opened { IfOk result (λ outlet.
            OpensOutlet (mem_doors_state self.old) address.now (mem_sink_state outlet) (mem_doors_state self.new)) }
        ensures refused { IfErr result (λ error.
            FailsWith error (mem_doors_state self.old) (mem_doors_state self.new)) }

        // As planned.
        ensures fails { IsErrOf result DoorError.Failed ↔ (FailsNext self.old.plan ⊎ (self.old.connected ≡ [])) }
        ensures gives { IfOk result (λ outlet. option_map (opened_by address.now) (slice_get self.old.connected 0) ≡ Some outlet) }
        ensures after { OnOk result (self.new ≡ record self.old {
          connected = drop 1 self.old.connected;
          plan = after_call self.old.plan;
          returns = with_outlet_out self.old.returns;
        }) }
        ensures after_refusal { IfErr result (λ error. self.new ≡ record self.old { plan = plan_after error self.old.plan }) }
    {
        let is_there = !self.connected.is_empty();
        let Ok(()) = self.plan.start_call(!is_there) else {
            return Err(DoorError::Failed);
        };
        let Ok(address_seen) = seen(alloc, address) else {
            return Err(DoorError::OutOfMemory);
        };
        let Ok(()) = self.returns.lend_outlet() else {
            return Err(DoorError::OutOfMemory);
        };
        match self.connected.pop_front() {
            Some(mut outlet) => {
                outlet.set_name(&address_seen);
                Ok(outlet)
            }
            None => unreachable!(),
        }
    }

    fn give_inlet(&mut self, inlet: MemSource)
        // As any doors.
        requires out { (mem_doors_state self.old).inlets_out ≢ 0 }
        ensures returned { TakesBackInlet (mem_doors_state self.old) (mem_source_state inlet) (mem_doors_state self.new) }

        ensures after { self.new ≡ record self.old {
          returns = record self.old.returns {
            returned = self.old.returns.returned ++ an_inlet (mem_source_state inlet) ∷ [];
            inlets_out = self.old.returns.inlets_out - 1;
            faults = counted inlet.plan.faults self.old.returns.faults;
          };
        } }
    {
        self.returns.take_inlet(inlet);
    }

    fn give_outlet(&mut self, outlet: MemSink)
        // As any doors.
        requires out { (mem_doors_state self.old).outlets_out ≢ 0 }
        ensures returned { TakesBackOutlet (mem_doors_state self.old) (mem_sink_state outlet) (mem_doors_state self.new) }

        ensures after { self.new ≡ record self.old {
          returns = record self.old.returns {
            returned = self.old.returns.returned ++ an_outlet (mem_sink_state outlet) ∷ [];
            outlets = self.old.returns.outlets ++ outlet ∷ [];
            outlets_out = self.old.returns.outlets_out - 1;
            faults = counted outlet.plan.faults self.old.returns.faults;
          };
        } }
    {
        self.returns.take_outlet(outlet);
    }
}
