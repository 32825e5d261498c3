//! Doors over files and TCP streams.

ghost use Rattle.std.specs.Prelude.{◌≡◌, ◌≢◌, ◌+◌, ◌-◌, ◌^◌, IsTrue, OnOk, IfOk, IfErr};
ghost use Rattle.edge_core.specs.Plan.{raised};
ghost use Rattle.edge_core.specs.Returns.{counted};
ghost use Rattle.edge_core.specs.Doors.{Accepts, CountsFaults, FailsWith, OpensInlet, OpensOutlet, Refuses, TakesBackInlet, TakesBackOutlet, shut};
ghost use Rattle.edge_core.specs.StdEdges.{reader_state, writer_state};
ghost use Rattle.socket_edge.specs.RealDoors.{real_doors_state, tells_nothing, FailsWhereFull};

use crate::endpoint::Endpoint;
use edge_core::{DoorError, Doors, ReadEdge, WriteEdge};
use std::alloc::Global;
use std::fs::{File, Files};
use std::io;
use std::net::{Net, TcpListener, TcpStream};

/// Doors that open files by their names and TCP connections by their addresses.
///
/// The source of a name is the file of that name. Its sink is the file of that name with `.out` behind it, which is
/// created, or emptied where it is there. An address is `HOST:PORT`, where HOST is an IP address or a name that the
/// system finds an address for, of which each is tried in turn. Doors that listen take connections from then on, also
/// before the first one is accepted. Accepting, connecting and the calls of a device may wait for a peer without end.
///
/// An opening fails where the system refuses it, and where `u64::MAX` devices of its kind are out.
#[derive(Debug, Drop)]
pub struct RealDoors<R> {
    rt: R,
    listener: Option<TcpListener>,
    refusals: u64,
    faults: u64,
    inlets_out: u64,
    outlets_out: u64,
}

impl<R> RealDoors<R> {
    /// Doors that don't listen and have opened nothing yet.
    pub fn new(rt: R) -> Self
        ensures { real_doors_state result ≡ shut }
    {
        RealDoors {
            rt,
            listener: None,
            refusals: 0,
            faults: 0,
            inlets_out: 0,
            outlets_out: 0,
        }
    }

    fn refuse(&mut self) -> DoorError
        ensures counted { self.new ≡ record self.old { refusals = raised self.old.refusals } }
        ensures failed { result ≡ DoorError.Failed }
        ensures risen { Refuses (real_doors_state self.old) (real_doors_state self.new) }
    {
        self.refusals = self.refusals.saturating_add(1);
        DoorError::Failed
    }

    /// What an opening answers that the system refused with this error.
    fn refuse_for(&mut self, error: &io::Error) -> DoorError
        ensures refused { FailsWith result (real_doors_state self.old) (real_doors_state self.new) }
    {
        if error.kind() == io::ErrorKind::OutOfMemory {
            return DoorError::OutOfMemory;
        }
        self.refuse()
    }

    /// Hands out a source over what was opened, or says why nothing was.
    fn lend_inlet(&mut self, opened: io::Result<Endpoint>) -> Result<ReadEdge<Endpoint>, DoorError>
        requires room { self.old.inlets_out ≢ 2 ^ 64 - 1 }
        ensures unfailed { IfOk result (λ inlet. inlet.faults ≡ 0) }
        ensures lent { OnOk result (self.new ≡ record self.old { inlets_out = self.old.inlets_out + 1 }) }
        ensures refused { IfErr result (λ error.
            FailsWith error (real_doors_state self.old) (real_doors_state self.new)) }
    {
        match opened {
            Ok(endpoint) => {
                self.inlets_out += 1;
                Ok(ReadEdge::new(endpoint))
            }
            Err(error) => Err(self.refuse_for(&error)),
        }
    }

    /// Hands out a sink over what was opened, or says why nothing was.
    fn lend_outlet(
        &mut self,
        opened: io::Result<Endpoint>,
    ) -> Result<WriteEdge<Endpoint>, DoorError>
        requires room { self.old.outlets_out ≢ 2 ^ 64 - 1 }
        ensures unfailed { IfOk result (λ outlet. outlet.faults ≡ 0) }
        ensures lent { OnOk result (self.new ≡ record self.old { outlets_out = self.old.outlets_out + 1 }) }
        ensures refused { IfErr result (λ error.
            FailsWith error (real_doors_state self.old) (real_doors_state self.new)) }
    {
        match opened {
            Ok(endpoint) => {
                self.outlets_out += 1;
                Ok(WriteEdge::new(endpoint))
            }
            Err(error) => Err(self.refuse_for(&error)),
        }
    }

    fn count_faults(&mut self, faults: u64)
        ensures counted { self.new ≡ record self.old { faults = counted faults self.old.faults } }
        ensures risen { CountsFaults self.old.faults faults self.new.faults }
    {
        if faults != 0 {
            self.faults = self.faults.saturating_add(1);
        }
    }
}

impl<R: Files<File = File> + Net<Listener = TcpListener, Stream = TcpStream> + Drop> Doors
    for RealDoors<R> {
    type Inlet = ReadEdge<Endpoint>;

    type Outlet = WriteEdge<Endpoint>;

    ghost state = { real_doors_state };

    fn inlet(&mut self, _alloc: Global, name: &str) -> Result<ReadEdge<Endpoint>, DoorError>
        // As any doors.
        ensures opened { IfOk result (λ inlet.
            OpensInlet (real_doors_state self.old) name.now (reader_state tells_nothing inlet) (real_doors_state self.new)) }
        ensures refused { IfErr result (λ error.
            FailsWith error (real_doors_state self.old) (real_doors_state self.new)) }

        ensures full { FailsWhereFull self.old.inlets_out result }
    {
        if self.inlets_out == u64::MAX {
            return Err(self.refuse());
        }
        let opened = File::open(&self.rt, name).map(Endpoint::File);
        self.lend_inlet(opened)
    }

    fn outlet(&mut self, alloc: Global, name: &str) -> Result<WriteEdge<Endpoint>, DoorError>
        // As any doors.
        ensures opened { IfOk result (λ outlet.
            OpensOutlet (real_doors_state self.old) name.now (writer_state tells_nothing outlet) (real_doors_state self.new)) }
        ensures refused { IfErr result (λ error.
            FailsWith error (real_doors_state self.old) (real_doors_state self.new)) }

        ensures full { FailsWhereFull self.old.outlets_out result }
    {
        if self.outlets_out == u64::MAX {
            return Err(self.refuse());
        }
        let Ok(path) = format!(in alloc; "{name}.out") else {
            return Err(DoorError::OutOfMemory);
        };
        let opened = File::create(&self.rt, path.as_str()).map(Endpoint::File);
        self.lend_outlet(opened)
    }

    fn listen(&mut self, _alloc: Global, address: &str) -> Result<(), DoorError> {
        match TcpListener::bind(&self.rt, address) {
            Ok(listener) => {
                self.listener = Some(listener);
                Ok(())
            }
            Err(error) => Err(self.refuse_for(&error)),
        }
    }

    fn accept(&mut self, _alloc: Global) -> Result<ReadEdge<Endpoint>, DoorError>
        // As any doors.
        requires listening { IsTrue (real_doors_state self.old).is_listening }
        ensures opened { IfOk result (λ inlet.
            Accepts (real_doors_state self.old) (reader_state tells_nothing inlet) (real_doors_state self.new)) }
        ensures refused { IfErr result (λ error.
            FailsWith error (real_doors_state self.old) (real_doors_state self.new)) }

        ensures full { FailsWhereFull self.old.inlets_out result }
    {
        if self.inlets_out == u64::MAX {
            return Err(self.refuse());
        }
        let Some(listener) = &self.listener else {
            unreachable!()
        };
        let opened = listener
            .accept()
            .map(|(stream, _)| Endpoint::of_stream(stream));
        self.lend_inlet(opened)
    }

    fn connect(&mut self, _alloc: Global, address: &str) -> Result<WriteEdge<Endpoint>, DoorError>
        // As any doors.
        ensures opened { IfOk result (λ outlet.
            OpensOutlet (real_doors_state self.old) address.now (writer_state tells_nothing outlet) (real_doors_state self.new)) }
        ensures refused { IfErr result (λ error.
            FailsWith error (real_doors_state self.old) (real_doors_state self.new)) }

        ensures full { FailsWhereFull self.old.outlets_out result }
    {
        if self.outlets_out == u64::MAX {
            return Err(self.refuse());
        }
        let opened = TcpStream::connect(&self.rt, address).map(Endpoint::of_stream);
        self.lend_outlet(opened)
    }

    fn give_inlet(&mut self, inlet: ReadEdge<Endpoint>)
        // As any doors.
        requires out { (real_doors_state self.old).inlets_out ≢ 0 }
        ensures returned { TakesBackInlet (real_doors_state self.old) (reader_state tells_nothing inlet) (real_doors_state self.new) }

        ensures counted { self.new.faults ≡ counted inlet.faults self.old.faults }
    {
        self.inlets_out -= 1;
        self.count_faults(inlet.faults());
    }

    fn give_outlet(&mut self, outlet: WriteEdge<Endpoint>)
        // As any doors.
        requires out { (real_doors_state self.old).outlets_out ≢ 0 }
        ensures returned { TakesBackOutlet (real_doors_state self.old) (writer_state tells_nothing outlet) (real_doors_state self.new) }

        ensures counted { self.new.faults ≡ counted outlet.faults self.old.faults }
    {
        self.outlets_out -= 1;
        self.count_faults(outlet.faults());
        outlet.into_inner().end();
    }
}
