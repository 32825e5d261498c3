//! What the lends of a pipe are, run by run. The functions do nothing: what they ensure is the law.

ghost use Rattle.std.specs.Prelude.{◌≡◌, List, option_map};
ghost use Rattle.pipe_core.specs.History.{Call, bytes_of};
ghost use Rattle.pipe_core.specs.Lends.{lend};
ghost use Rattle.pipe_turns.specs.Lends.{lend_runs};

/// The runs of a lend have just its bytes.
pub fn runs_are_the_lend()
    ensures { (h : List Call) → option_map bytes_of (lend_runs h) ≡ lend h }
{}
