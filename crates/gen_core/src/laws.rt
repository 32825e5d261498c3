//! What holds of every generated input. These functions do nothing: what they ensure is the law.

ghost use Rattle.std.specs.Prelude.{◌≡◌, ◌≢◌, true, ◌*◌, ◌≤◌, ℕ, length, IsNone};
ghost use Rattle.std.specs.List.{AllByRecursion};
ghost use Rattle.frame_model.specs.declared.framing.Framing.{Framing};
ghost use Rattle.frame_model.specs.Spelling.{obstacle, text};
ghost use Rattle.frame_grammar.specs.declared.job.Job.{Job};
ghost use Rattle.frame_model.specs.Cut.{Rest};
ghost use Rattle.frame_grammar.specs.Job.{translation};
ghost use Rattle.gen_core.specs.Generator.{input, payloads};

/// Each payload has a frame in each framing, and at most 95 bytes.
pub fn generated_is_spellable()
    ensures spellable { (framing : Framing) (seed number count : ℕ) → AllByRecursion (λ payload. IsNone (obstacle framing payload)) (payloads seed number count) }
    ensures short { (seed number count : ℕ) → AllByRecursion (λ payload. length payload ≤ 95) (payloads seed number count) }
{}

/// So many frames have at most 99 bytes each, in each framing.
pub fn generated_is_small()
    ensures counted { (seed number count : ℕ) → length (payloads seed number count) ≡ count }
    ensures small { (framing : Framing) (seed number count : ℕ) → length (text framing (payloads seed number count)) ≤ 99 * count }
{}

/// A generated input never ends within a frame, whatever the greatest payload is that a job takes.
pub fn generated_has_no_rest()
    ensures { (job : Job) (seed count place : ℕ) → (translation job (input seed count job.input) true).verdict ≢ Rest place }
{}
