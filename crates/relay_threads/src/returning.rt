//! Giving the devices of a relay back.

ghost use Rattle.std.specs.Prelude.{◌≢◌, ◌∷◌, []};
ghost use Rattle.relay_model.specs.Devices.{HasComeBack, devices_of};

use crate::batching::Task;
use edge_core::Doors;

/// Gives back the source of a relay and then its sink.
pub fn give_back<D: Doors>(devices: Task<D::Inlet, D::Outlet>, doors: &mut D)
    requires inlets { (D.state doors.old).inlets_out ≢ 0 }
    requires outlets { (D.state doors.old).outlets_out ≢ 0 }
    ensures { HasComeBack (devices_of (D.Inlet.state devices.inlet) (D.Outlet.state devices.outlet) ∷ []) (D.state doors.old) (D.state doors.new) }
{
    doors.give_inlet(devices.inlet);
    doors.give_outlet(devices.outlet);
}
