//! What opens the devices of a command by their names, and takes them back.

ghost use Rattle.std.specs.Prelude.{◌≡◌, ◌≢◌, OnOk, IfOk, IfErr, IsTrue};
ghost use Rattle.edge_core.specs.Doors.{DoorsState, OpensInlet, OpensOutlet, Listens, Accepts, FailsWith, TakesBackInlet, TakesBackOutlet};

use crate::device::{Sink, Source};
use std::alloc::Global;
use thiserror::Error;

/// Why nothing was opened.
#[derive(Clone, Copy, Debug, PartialEq, Eq, Error)]
pub enum DoorError {
    /// It was refused, and is counted as a refusal of the doors.
    #[error("door failed")]
    Failed,
    #[error("out of memory")]
    OutOfMemory,
}

/// Where devices come from, and where they go when they are done.
///
/// Each opening call that answers `Failed` is counted as a refusal, and after any error nothing new is open.
pub trait Doors {
    type Inlet: Source + Send + Drop;

    type Outlet: Sink + Send + Drop;

    /// How many openings failed, how many devices came back with a fault, whether the doors listen, how many devices
    /// are out, and, where they tell them, the bytes behind them and the devices that came back.
    ghost state: { Self → DoorsState };

    /// Opens the source of `name`.
    fn inlet(&mut self, alloc: Global, name: &str) -> Result<Self::Inlet, DoorError>
        ensures opened { IfOk result (λ inlet. OpensInlet (state self.old) name.now (Self.Inlet.state inlet) (state self.new)) }
        ensures refused { IfErr result (λ error. FailsWith error (state self.old) (state self.new)) };

    /// Opens the sink that belongs to `name`.
    fn outlet(&mut self, alloc: Global, name: &str) -> Result<Self::Outlet, DoorError>
        ensures opened { IfOk result (λ outlet. OpensOutlet (state self.old) name.now (Self.Outlet.state outlet) (state self.new)) }
        ensures refused { IfErr result (λ error. FailsWith error (state self.old) (state self.new)) };

    /// Listens at `address`, so that connections to it can be accepted.
    fn listen(&mut self, alloc: Global, address: &str) -> Result<(), DoorError>
        ensures opened { OnOk result (Listens (state self.old) (state self.new)) }
        ensures refused { IfErr result (λ error. FailsWith error (state self.old) (state self.new)) };

    /// Opens the source of the next connection, and may wait for a peer.
    fn accept(&mut self, alloc: Global) -> Result<Self::Inlet, DoorError>
        requires listening { IsTrue (state self.old).is_listening }
        ensures opened { IfOk result (λ inlet. Accepts (state self.old) (Self.Inlet.state inlet) (state self.new)) }
        ensures refused { IfErr result (λ error. FailsWith error (state self.old) (state self.new)) };

    /// Connects to `address`, and opens a sink there.
    fn connect(&mut self, alloc: Global, address: &str) -> Result<Self::Outlet, DoorError>
        ensures opened { IfOk result (λ outlet. OpensOutlet (state self.old) address.now (Self.Outlet.state outlet) (state self.new)) }
        ensures refused { IfErr result (λ error. FailsWith error (state self.old) (state self.new)) };

    /// Takes back a source that is done. One with a fault is counted.
    fn give_inlet(&mut self, inlet: Self::Inlet)
        requires out { (state self.old).inlets_out ≢ 0 }
        ensures returned { TakesBackInlet (state self.old) (Self.Inlet.state inlet) (state self.new) };

    /// Takes back a sink that is done. One with a fault is counted.
    fn give_outlet(&mut self, outlet: Self::Outlet)
        requires out { (state self.old).outlets_out ≢ 0 }
        ensures returned { TakesBackOutlet (state self.old) (Self.Outlet.state outlet) (state self.new) };
}
