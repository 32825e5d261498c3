//! Worked cases of the definitions, computed by the check. This function does nothing.

ghost use Rattle.std.specs.Prelude.{◌≡◌, ◌∷◌, [], true, false};
ghost use Rattle.frame_model.specs.Cut.{Bad, End, Open, Rest};
ghost use Rattle.relay_model.specs.Ending.{frames_written, outcome_of, status_of};

use crate::ending::FillEnd;
use crate::status::Status;
use frame_model::{BadKind, Framing};

/// Which status stands for which end: a failed write before a bad frame, a bad frame before a failed read, and so on.
pub fn ending_cases()
    ensures whole { status_of (outcome_of false FillEnd.End End) ≡ Status.Clean }
    ensures bad { status_of (outcome_of false FillEnd.End (Bad 5 (BadKind.Unspellable 1))) ≡ Status.BadFrame }
    ensures bad_and_gone { status_of (outcome_of false (FillEnd.Gone 2) (Bad 5 (BadKind.Unspellable 1))) ≡ Status.BadFrame }
    ensures rest { status_of (outcome_of false FillEnd.End (Rest 0)) ≡ Status.Truncated }
    ensures read_fault { status_of (outcome_of false FillEnd.Fault Open) ≡ Status.ReadFault }
    ensures write_fault { status_of (outcome_of true FillEnd.End (Bad 9 (BadKind.TooBig 131072))) ≡ Status.WriteFault }
    ensures too_long { status_of (outcome_of false FillEnd.Long Open) ≡ Status.TooLong }
    ensures bad_before_a_fault { status_of (outcome_of false FillEnd.Fault (Bad 0 (BadKind.TooBig 3))) ≡ Status.BadFrame }
    ensures none_written { frames_written Framing.Line ((104 ∷ 101 ∷ 108 ∷ 108 ∷ 111 ∷ []) ∷ []) (104 ∷ 101 ∷ 108 ∷ []) 1 ≡ 0 }
    ensures all_written { frames_written Framing.Line ((104 ∷ 105 ∷ []) ∷ (97 ∷ []) ∷ []) (104 ∷ 105 ∷ 10 ∷ 97 ∷ 10 ∷ []) 2 ≡ 2 }
{}
