//! A source in memory whose reads are cut short and fail as planned.

ghost use Rattle.std.specs.Prelude.{◌≡◌, ◌<◌, ◌≤◌, ◌↔◌, length, take, drop, min, IsErr, OnErr, IfOk};
ghost use Rattle.std.specs.Io.KnownBytes.{IsAtEnd};
ghost use Rattle.edge_core.specs.Device.{Gives, Fails};
ghost use Rattle.edge_core.specs.MemSource.{mem_source_state};
ghost use Rattle.edge_core.specs.Plan.{plan_of, FailsNext, cut_to, after_fault, after_transfer};

use crate::device::{Failed, Source};
use crate::plan::Plan;
use crate::whole_source::WholeSource;
use std::marker::Model;

/// A source whose reads give short counts and fail where they are told to.
#[derive(Debug, Drop)]
pub struct MemSource {
    content: WholeSource,
    plan: Plan,
}

impl Model for MemSource {
    ghost use Rattle.edge_core.specs.MemSource.{MemSourceState};

    ghost Value = { MemSourceState };

    ghost view = { λ source. record { left = source.content; plan = source.plan } };
}

impl MemSource {
    /// A source of the bytes of `content`.
    ///
    /// The calls of `read` are counted from 1, and each whose number stands in `fails` fails. The read at index i
    /// among those that don't fail gives at most `cuts[i]` bytes, where 0 counts as 1. Past the end of `cuts` there
    /// is no cut. The count of calls stops at `u64::MAX`, and no later call fails.
    pub fn make(content: Vec<u8>, cuts: Vec<usize>, fails: Vec<u64>) -> Self
        ensures { result ≡ record { left = content.items; plan = plan_of cuts.items fails.items } }
    {
        MemSource {
            content: WholeSource::make(content),
            plan: Plan::new(cuts, fails),
        }
    }

    pub(crate) fn faults(&self) -> u64
        ensures { result ≡ self.now.plan.faults }
    {
        self.plan.faults()
    }
}

impl Source for MemSource {
    ghost state = { mem_source_state };

    fn read(&mut self, buf: &mut [u8]) -> Result<usize, Failed>
        // As any source.
        ensures room { IfOk result (λ n. n ≤ length buf.old) }
        ensures given { IfOk result (λ n.
            Gives (mem_source_state self.old) (take n buf.new) (mem_source_state self.new)) }
        ensures end { IfOk result (λ n.
            n ≡ 0 → 0 < length buf.old → IsAtEnd (mem_source_state self.new).left) }
        ensures failed { OnErr result (Fails (mem_source_state self.old) (mem_source_state self.new)) }

        // As planned.
        ensures fails { IsErr result ↔ FailsNext self.old.plan }
        ensures amount { IfOk result (λ n.
            n ≡ cut_to self.old.plan.cuts (min (length buf.old) (length self.old.left))) }
        ensures after { IfOk result (λ n.
            self.new ≡ record { left = drop n self.old.left; plan = after_transfer self.old.plan }) }
        ensures after_failed { OnErr result (self.new ≡ record self.old { plan = after_fault self.old.plan }) }
    {
        self.plan.start_call(false)?;
        let most = self.plan.use_cut(buf.len());
        self.content.read(&mut buf[..most])
    }
}
