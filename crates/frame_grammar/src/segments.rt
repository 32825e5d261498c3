//! The size of a relay's pipe.

ghost use Rattle.std.specs.Prelude.{◌≡◌, ◌≤◌, ◌+◌, ◌*◌, min};
ghost use Rattle.frame_grammar.specs.Job.{IsInRange, segments};

use crate::job::Job;

/// The most bytes of a writer's pause for which a pipe has room. With a longer one it may be full before a flush pauses.
const PAUSE_ROOM: u64 = 1 << 20;

/// How many segments a relay's pipe has: enough for the greatest payload with its head and for a writer's pause, of which a
/// mebibyte counts, and three more.
pub fn segments_of(job: &Job) -> usize
    requires { IsInRange job.now }
    ensures count { result ≡ segments job.now }
    // So many bytes the segments have.
    ensures least { job.now.max + 8 + min job.now.pause 1048576 + 3 * job.now.seg ≤ result * job.now.seg }
    ensures most { result * job.now.seg ≤ 269746182 }
{
    let held = job.max + 8 + job.pause.min(PAUSE_ROOM);
    3 + held.div_ceil(job.seg as u64) as usize
}
