//! What fronts mean for translations. The function does nothing.

ghost use Rattle.std.specs.Prelude.{◌≡◌, ℕ, Bool, List, take, drop};
ghost use Rattle.frame_model.specs.Spelling.{text};
ghost use Rattle.frame_model.specs.Translation.{behind, translation_between};
ghost use Rattle.frame_fronts.specs.Fronts.{IsFront};

use frame_model::Framing;

/// A translation begins with the text of the frames at the front, and goes on behind them. Where the output has the input's
/// framing, that text is these frames themselves.
pub fn front_is_translated()
    ensures goes_on { (input output : Framing) (max : ℕ) (x : List ℕ) (at_end : Bool) (len frames : ℕ) (payloads : List (List ℕ)) →
        IsFront input output max x len frames payloads →
        translation_between input output max x at_end ≡ behind (text output payloads) len (translation_between input output max (drop len x) at_end) }
    ensures itself { (input output : Framing) (max : ℕ) (x : List ℕ) (at_end : Bool) (len frames : ℕ) (payloads : List (List ℕ)) →
        input ≡ output → IsFront input output max x len frames payloads →
        translation_between input output max x at_end ≡ behind (take len x) len (translation_between input output max (drop len x) at_end) }
{}
