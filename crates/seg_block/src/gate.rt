//! The watermark of a parted block, as each of the two ends has it. All atomic steps are here.

ghost use Rattle.std.specs.Prelude.{◌≡◌, ℕ, ◌+◌, ◌*◌, ◌/◌, ◌%◌, ◌<◌, ◌≤◌, List, [], ◌∷◌, ◌++◌, length, take, drop};
ghost use Rattle.std.specs.Vec.{vec_len, vec_ptr};
ghost use mathlib.Core.List.{IsPrefix};
ghost use Rattle.seg_block.specs.Memory.{place};
ghost use Rattle.seg_block.specs.Rule.{Names, gate_owns, tail, front, last, gone};

use crate::home::Home;
use crate::known::Known;
use crate::run::Run;
use std::marker::{Brand, Model};
use std::sync::atomic::Ordering::SeqCst;
use std::sync::atomic::raw;
use std_alloc::vec::{Lodged, lodge};

// One end of a parting, without its bytes. It can't be let go of before it has left.
pub(crate) struct Gate {
    pub(crate) base: *mut u64,
    ghost names: { Names },
    ghost role: { ℕ },
    // What the tail has published, or the front has fetched.
    ghost log: { List ℕ },
}

impl Model for Gate {
    ghost also_owns = { λ gate. gate_owns gate.base gate.names gate.role gate.log };
}

// An end is at home in any thread.
unsafe impl Send for Gate {}

impl Gate {
    ghost use Rattle.seg_block.specs.Gates.{SameGate, IsKnownOf, Leaves};

    // The tail publishes the first `count` bytes of its run.
    pub(crate) fn commit(&mut self, run: Run, count: u64) -> (Run, Known)
        requires { (self.old.role ≡ tail) × (run.ptr ≡ place self.old.base (length self.old.log))
            × (count ≤ length run.items) × (length self.old.log + count ≤ self.old.names.size) }
        ensures { SameGate self.old self.new × (self.new.role ≡ tail)
            × (self.new.log ≡ self.old.log ++ take count run.items)
            × (result.0.ptr ≡ place self.old.base (length self.old.log + count))
            × (result.0.items ≡ drop count run.items)
            × IsKnownOf self.old result.1 × (result.1.log ≡ self.new.log) }
    {
        unsafe {
            let _found = raw::fetch_add::<Brand>(self.base, 4 * count, SeqCst);
        }
        let Run {} = run;
        (Run {}, Known {})
    }

    // The front fetches all that is published.
    pub(crate) fn look(&mut self, run: Run, known: Known) -> (u64, Run)
        requires { (self.old.role ≡ front) × (run.ptr ≡ place self.old.base 0)
            × (run.items ≡ self.old.log) × IsKnownOf self.old known }
        ensures { SameGate self.old self.new × (self.new.role ≡ front)
            × IsPrefix self.old.log self.new.log × IsPrefix known.log self.new.log
            × (length self.new.log ≤ self.old.names.size)
            × (result.1.ptr ≡ place self.old.base 0) × (result.1.items ≡ self.new.log)
            × (result.0 / 4 ≡ length self.new.log) }
    {
        let found = unsafe { raw::load::<Brand>(self.base, SeqCst) };
        let Run {} = run;
        let Known {} = known;
        (found, Run {})
    }

    // The end leaves. The one that finds the other's bit set is the last, and owns the block.
    pub(crate) fn leave(&mut self, run: Run, known: Known, bit: u64) -> (u64, Known)
        requires { IsKnownOf self.old known × Leaves self.old run bit }
        ensures { SameGate self.old self.new × IsKnownOf self.old result.1 × (result.1.log ≡ self.old.log)
            × IsPrefix known.first result.1.first
            × (result.0 % 4 ≡ 0 → (self.new.role ≡ gone) × (result.1.first ≡ self.old.role ∷ []))
            × (0 < result.0 % 4 → self.new.role ≡ last) }
    {
        let found = unsafe { raw::fetch_add::<Brand>(self.base, bit, SeqCst) };
        let Run {} = run;
        let Known {} = known;
        (found, Known {})
    }

    // The end that left first has nothing of the block.
    pub(crate) fn let_go(self)
        requires { self.role ≡ gone }
    {
        let Gate { base: _ } = self;
    }

    // The last end has the block again.
    pub(crate) fn close(self) -> (Home, Run)
        requires { self.role ≡ last }
        ensures { (result.0.base ≡ self.base) × (result.0.size ≡ self.names.size)
            × (result.1.ptr ≡ place self.base 0) × (length result.1.items ≡ self.names.size) }
    {
        let Gate { base } = self;
        (Home { base }, Run {})
    }

    // Where the two ends are in one hand, the front has fetched a front part of what the tail published. It does nothing
    // at run time.
    pub(crate) fn agree(&mut self, other: &mut Gate)
        requires { (self.old.role ≡ tail) × (other.old.role ≡ front) × SameGate self.old other.old }
        ensures { (self.new ≡ self.old) × (other.new ≡ other.old)
            × IsPrefix other.old.log self.old.log }
    {}

    // A `Vec` over the run that begins with byte `from`.
    pub(crate) fn house(&mut self, from: usize, len: usize, run: Run) -> Vec<u8, Lodged>
        requires { (run.ptr ≡ place self.old.base from) × (length run.items ≡ len)
            × (from + len ≤ self.old.names.size) }
        ensures { (self.new ≡ self.old) × (result.items ≡ run.items) × (vec_len result ≡ len)
            × (vec_ptr result ≡ place self.old.base from) }
    {
        let Run {} = run;
        unsafe { lodge((self.base.add(1) as *mut u8).add(from), len, len) }
    }
}
