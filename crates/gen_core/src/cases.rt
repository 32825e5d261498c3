//! Worked cases of the definitions, computed by the check. These functions do nothing.

ghost use Rattle.std.specs.Prelude.{◌≡◌, ◌∷◌, [], length, map, slice_index};
ghost use Rattle.frame_model.specs.Spelling.{text};
ghost use Rattle.gen_core.specs.Generator.{input, payload, payloads};

use frame_grammar::Framing;

/// Small inputs.
pub fn generator_cases()
    ensures payload { payload 2 0 ≡ 34 ∷ 35 ∷ [] }
    ensures line { input 2 1 Framing.Line ≡ 34 ∷ 35 ∷ 10 ∷ [] }
    ensures len4 { text Framing.Len4 (payloads 2 0 1) ≡ 0 ∷ 0 ∷ 0 ∷ 2 ∷ 34 ∷ 35 ∷ [] }
    ensures vlen { text Framing.VLen (payloads 2 0 1) ≡ 2 ∷ 34 ∷ 35 ∷ [] }
    ensures lens { map length (payloads 95 0 2) ≡ 95 ∷ 12 ∷ [] }
    ensures first { map (λ p. slice_index p 0) (payloads 95 0 2) ≡ 32 ∷ 33 ∷ [] }
    ensures lines { length (input 95 2 Framing.Line) ≡ 109 }
    ensures counted { length (text Framing.Len4 (payloads 95 0 2)) ≡ 115 }
    ensures nothing { input 7 0 Framing.Len2 ≡ [] }
    ensures empty { input 0 1 Framing.Len4 ≡ 0 ∷ 0 ∷ 0 ∷ 0 ∷ [] }
{}
