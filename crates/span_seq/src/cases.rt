//! Worked cases of the definitions, computed by the check. These functions do nothing.

ghost use Rattle.std.specs.Prelude.{◌≡◌, [], ◌∷◌};
ghost use Rattle.span_seq.specs.Spans.{bytes_of, keep, skip, spans_of, whole_of};
ghost use Rattle.span_seq.specs.Cases.{four_spans, from_to};

/// The bytes of all spans, and of parts of them.
pub fn bytes_cases()
    ensures whole { bytes_of (whole_of four_spans) ≡ 97 ∷ 98 ∷ 99 ∷ 10 ∷ 100 ∷ 101 ∷ [] }
    ensures inner { bytes_of (from_to 1 5) ≡ 98 ∷ 99 ∷ 10 ∷ 100 ∷ [] }
    ensures nothing { bytes_of (from_to 4 4) ≡ [] }
    ensures no_spans { whole_of [] ≡ record { spans = []; from = 0; to = 0 } }
{}

/// What parts have of each span.
pub fn spans_cases()
    ensures whole { spans_of (whole_of four_spans) ≡ (97 ∷ 98 ∷ []) ∷ (99 ∷ 10 ∷ []) ∷ (100 ∷ 101 ∷ []) ∷ [] }
    ensures inner { spans_of (from_to 1 5) ≡ (98 ∷ []) ∷ (99 ∷ 10 ∷ []) ∷ (100 ∷ []) ∷ [] }
    ensures one { spans_of (from_to 2 4) ≡ (99 ∷ 10 ∷ []) ∷ [] }
    ensures within_one { spans_of (from_to 3 4) ≡ (10 ∷ []) ∷ [] }
    ensures nothing { spans_of (from_to 4 4) ≡ [] }
    ensures skipped { skip 3 four_spans ≡ [] ∷ (10 ∷ []) ∷ [] ∷ (100 ∷ 101 ∷ []) ∷ [] }
    ensures kept { keep 3 four_spans ≡ (97 ∷ 98 ∷ []) ∷ (99 ∷ []) ∷ [] ∷ [] ∷ [] }
{}
