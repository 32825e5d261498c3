//! The names of doors in memory, with the devices that belong to them.

ghost use Rattle.std.specs.Prelude.{◌≡◌, map, is_some, IfOk};
ghost use Rattle.edge_core.specs.Names.{named_with, inlet_of, outlet_of, inlet_taken, outlet_taken, place_from, without_inlet, without_outlet};
ghost use Rattle.std.specs.Str.{bytes_eq};

use crate::mem_sink::MemSink;
use crate::mem_source::MemSource;
use std::alloc::{AllocError, Global};
use std::marker::Model;
use std::snapshot::Snapshot;

// A name, and its devices until they are taken. Contracts also see the bytes that its source had at first.
#[derive(Drop)]
struct Named {
    name: String,
    content: Snapshot<MemSource>,
    inlet: Option<MemSource>,
    outlet: Option<MemSink>,
}

impl Model for Named {
    ghost use Rattle.std.specs.Prelude.{string_bytes};
    ghost use Rattle.edge_core.specs.Names.{NamedState};

    ghost Value = { NamedState };

    ghost view = { λ named. record {
      name = string_bytes named.name;
      content = named.content.value.left;
      inlet = named.inlet;
      outlet = named.outlet;
    } };
}

impl Named {
    fn new(devices: (String, MemSource, MemSink)) -> Self
        ensures { result ≡ named_with devices }
    {
        let (name, inlet, outlet) = devices;
        Named {
            name,
            content: Snapshot::of(&inlet),
            inlet: Some(inlet),
            outlet: Some(outlet),
        }
    }

    fn is_called(&self, name: &str) -> bool
        ensures { result ≡ bytes_eq self.now.name name.now }
    {
        self.name.as_str() == name
    }

    fn has_inlet(&self) -> bool
        ensures { result ≡ is_some self.now.inlet }
    {
        self.inlet.is_some()
    }

    fn has_outlet(&self) -> bool
        ensures { result ≡ is_some self.now.outlet }
    {
        self.outlet.is_some()
    }

    fn take_inlet(&mut self) -> Option<MemSource>
        ensures taken { result ≡ self.old.inlet }
        ensures after { self.new ≡ inlet_taken self.old }
    {
        self.inlet.take()
    }

    fn take_outlet(&mut self) -> Option<MemSink>
        ensures taken { result ≡ self.old.outlet }
        ensures after { self.new ≡ outlet_taken self.old }
    {
        self.outlet.take()
    }
}

#[derive(Drop)]
pub(crate) struct Names {
    list: Vec<Named>,
}

// Clauses see the list.
impl Model for Names {
    ghost use Rattle.std.specs.Prelude.{List};
    ghost use Rattle.edge_core.specs.Names.{NamedState};

    ghost Value = { List NamedState };

    ghost view = { λ names. names.list.items };
}

impl Names {
    pub(crate) fn make(
        alloc: Global,
        named: Vec<(String, MemSource, MemSink)>,
    ) -> Result<Self, AllocError>
        ensures { IfOk result (λ names. names ≡ map named_with named.items) }
    {
        let mut list = Vec::with_capacity(alloc, named.len())?;
        for devices in named {
            list.push(Named::new(devices))?;
        }
        Ok(Names { list })
    }

    fn place_of(&self, name: &str) -> Option<usize>
        ensures { result ≡ place_from 0 name.now self.now }
    {
        let mut rest = self.list.as_slice();
        let mut at = 0;
        while let Some((first, behind)) = rest.split_first() {
            if first.is_called(name) {
                return Some(at);
            }
            at += 1;
            rest = behind;
        }
        None
    }

    pub(crate) fn has_inlet(&self, name: &str) -> bool
        ensures { result ≡ is_some (inlet_of name.now self.now) }
    {
        match self.place_of(name) {
            Some(at) => self.list[at].has_inlet(),
            None => false,
        }
    }

    pub(crate) fn has_outlet(&self, name: &str) -> bool
        ensures { result ≡ is_some (outlet_of name.now self.now) }
    {
        match self.place_of(name) {
            Some(at) => self.list[at].has_outlet(),
            None => false,
        }
    }

    pub(crate) fn take_inlet(&mut self, name: &str) -> Option<MemSource>
        ensures taken { result ≡ inlet_of name.now self.old }
        ensures after { self.new ≡ without_inlet name.now self.old }
    {
        match self.place_of(name) {
            Some(at) => self.list[at].take_inlet(),
            None => None,
        }
    }

    pub(crate) fn take_outlet(&mut self, name: &str) -> Option<MemSink>
        ensures taken { result ≡ outlet_of name.now self.old }
        ensures after { self.new ≡ without_outlet name.now self.old }
    {
        match self.place_of(name) {
            Some(at) => self.list[at].take_outlet(),
            None => None,
        }
    }
}
