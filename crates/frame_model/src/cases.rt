//! Worked cases of the definitions, computed by the check. These functions do nothing.

ghost use Rattle.std.specs.Prelude.{◌≡◌, ◌++◌, ◌∷◌, [], ◌^◌, ◌-◌, ℕ, List, replicate, Some, true, false};
ghost use Rattle.frame_model.specs.Spelling.{spelling, obstacle};
ghost use Rattle.frame_model.specs.Cut.{front, Whole, Refused, Partial, cut, Open, End, Rest, Bad};
ghost use Rattle.frame_model.specs.Translation.{translation_between};

use crate::framing::{BadKind, Framing};

/// Frames of each framing, and payloads that have none.
pub fn spelling_cases()
    ensures len4 { spelling Framing.Len4 (104 ∷ 105 ∷ []) ≡ 0 ∷ 0 ∷ 0 ∷ 2 ∷ 104 ∷ 105 ∷ [] }
    ensures len2 { spelling Framing.Len2 (97 ∷ 13 ∷ []) ≡ 0 ∷ 2 ∷ 97 ∷ 13 ∷ [] }
    ensures line { spelling Framing.Line (97 ∷ []) ≡ 97 ∷ 10 ∷ [] }
    ensures line_feed { obstacle Framing.Line (97 ∷ 10 ∷ 10 ∷ []) ≡ Some 1 }
    ensures long { obstacle Framing.Len2 (replicate 65536 97) ≡ Some 65535 }
{}

/// What stands at the front of an input, and how it is cut.
pub fn cut_cases()
    ensures part_of_head { front Framing.Len4 65536 (0 ∷ 0 ∷ 0 ∷ []) ≡ Partial }
    ensures head_at_end { cut Framing.Len4 65536 (0 ∷ 0 ∷ 0 ∷ []) true ≡ record { payloads = []; verdict = Rest 0 } }
    ensures too_big { front Framing.Len4 1 (0 ∷ 0 ∷ 0 ∷ 2 ∷ []) ≡ Refused (BadKind.TooBig 2) }
    ensures half_a_payload { front Framing.Len4 2 (0 ∷ 0 ∷ 0 ∷ 2 ∷ 97 ∷ []) ≡ Partial }
    ensures a_frame_and_more { front Framing.Len2 2 (0 ∷ 2 ∷ 97 ∷ 98 ∷ 99 ∷ []) ≡ Whole (97 ∷ 98 ∷ []) (99 ∷ []) }
    ensures open_line { cut Framing.Line 2 (97 ∷ 98 ∷ []) false ≡ record { payloads = []; verdict = Open } }
    ensures last_line { cut Framing.Line 2 (97 ∷ 98 ∷ []) true ≡ record { payloads = (97 ∷ 98 ∷ []) ∷ []; verdict = End } }
    ensures long_line { cut Framing.Line 2 (97 ∷ 98 ∷ 99 ∷ []) false ≡ record { payloads = []; verdict = Bad 0 (BadKind.TooBig 3) } }
    ensures whole_line { cut Framing.Line 2 (97 ∷ 98 ∷ 10 ∷ []) false ≡ record { payloads = (97 ∷ 98 ∷ []) ∷ []; verdict = Open } }
    ensures empty_line { front Framing.Line 0 (10 ∷ []) ≡ Whole [] [] }
    ensures nothing { cut Framing.Line 0 [] true ≡ record { payloads = []; verdict = End } }
{}

/// Whole inputs and their translations.
pub fn translation_cases()
    ensures one { translation_between Framing.Len4 Framing.Line 65536 (0 ∷ 0 ∷ 0 ∷ 2 ∷ 104 ∷ 105 ∷ []) true ≡ record { text = 104 ∷ 105 ∷ 10 ∷ []; verdict = End } }
    ensures nothing { translation_between Framing.Len4 Framing.Line 65536 [] true ≡ record { text = []; verdict = End } }
    ensures empty_payload { translation_between Framing.Len4 Framing.Line 65536 (0 ∷ 0 ∷ 0 ∷ 0 ∷ []) true ≡ record { text = 10 ∷ []; verdict = End } }
    ensures two { translation_between Framing.Len4 Framing.Line 65536 (0 ∷ 0 ∷ 0 ∷ 2 ∷ 104 ∷ 105 ∷ 0 ∷ 0 ∷ 0 ∷ 1 ∷ 97 ∷ []) true
        ≡ record { text = 104 ∷ 105 ∷ 10 ∷ 97 ∷ 10 ∷ []; verdict = End } }
    ensures unended_line { translation_between Framing.Line Framing.Len2 65536 (97 ∷ 13 ∷ 10 ∷ 98 ∷ []) true
        ≡ record { text = 0 ∷ 2 ∷ 97 ∷ 13 ∷ 0 ∷ 1 ∷ 98 ∷ []; verdict = End } }
    ensures line_feed_within { translation_between Framing.Len4 Framing.Line 65536 (0 ∷ 0 ∷ 0 ∷ 1 ∷ 97 ∷ 0 ∷ 0 ∷ 0 ∷ 2 ∷ 97 ∷ 10 ∷ 0 ∷ 0 ∷ 0 ∷ 1 ∷ 98 ∷ []) true
        ≡ record { text = 97 ∷ 10 ∷ []; verdict = Bad 5 (BadKind.Unspellable 1) } }
    ensures rest { translation_between Framing.Len4 Framing.Line 65536 (0 ∷ 0 ∷ 0 ∷ 5 ∷ 104 ∷ []) true ≡ record { text = []; verdict = Rest 0 } }
    ensures part_of_head { translation_between Framing.Len4 Framing.Line 65536 (0 ∷ 0 ∷ []) true ≡ record { text = []; verdict = Rest 0 } }
    ensures broken_off { translation_between Framing.Len4 Framing.Line 65536 (0 ∷ 0 ∷ 0 ∷ 1 ∷ 97 ∷ 0 ∷ 0 ∷ []) false ≡ record { text = 97 ∷ 10 ∷ []; verdict = Open } }
    ensures bad_follows { translation_between Framing.Len4 Framing.Line 65536 (0 ∷ 0 ∷ 0 ∷ 5 ∷ 104 ∷ 101 ∷ 108 ∷ 108 ∷ 111 ∷ 0 ∷ 2 ∷ 0 ∷ 0 ∷ []) true
        ≡ record { text = 104 ∷ 101 ∷ 108 ∷ 108 ∷ 111 ∷ 10 ∷ []; verdict = Bad 9 (BadKind.TooBig 131072) } }
    ensures long_line { translation_between Framing.Line Framing.Line 2 (97 ∷ 98 ∷ 10 ∷ 97 ∷ 98 ∷ 99 ∷ []) true
        ≡ record { text = 97 ∷ 98 ∷ 10 ∷ []; verdict = Bad 3 (BadKind.TooBig 3) } }
    ensures too_big { translation_between Framing.Len4 Framing.Line 65536 (0 ∷ 1 ∷ 0 ∷ 1 ∷ []) true ≡ record { text = []; verdict = Bad 0 (BadKind.TooBig 65537) } }
{}

/// The greatest payloads, and one that a shorter head can't tell.
pub fn greatest_payload_cases()
    ensures line { translation_between Framing.Len4 Framing.Line 65536 (0 ∷ 1 ∷ 0 ∷ 0 ∷ replicate 65536 97) true
        ≡ record { text = replicate 65536 97 ++ 10 ∷ []; verdict = End } }
    ensures too_long { translation_between Framing.Len4 Framing.Len2 65536 (0 ∷ 1 ∷ 0 ∷ 0 ∷ replicate 65536 97) true
        ≡ record { text = []; verdict = Bad 0 (BadKind.Unspellable 65535) } }
    ensures just_fits { translation_between Framing.Len4 Framing.Len2 65536 (0 ∷ 0 ∷ 255 ∷ 255 ∷ replicate 65535 97) true
        ≡ record { text = 255 ∷ 255 ∷ replicate 65535 97; verdict = End } }
{}

/// Heads in groups of 7 bits.
pub fn group_cases()
    ensures one { translation_between Framing.VLen Framing.Line 65536 (2 ∷ 104 ∷ 105 ∷ []) true ≡ record { text = 104 ∷ 105 ∷ 10 ∷ []; verdict = End } }
    ensures longer_than_needed { translation_between Framing.VLen Framing.Line 65536 (1 ∷ 97 ∷ 128 ∷ 0 ∷ []) true
        ≡ record { text = 97 ∷ 10 ∷ []; verdict = Bad 2 (BadKind.BadHead 2) } }
    ensures unending { translation_between Framing.VLen Framing.Line 65536 (128 ∷ 128 ∷ 128 ∷ 128 ∷ []) true ≡ record { text = []; verdict = Bad 0 (BadKind.BadHead 4) } }
    ensures part_of_head { translation_between Framing.VLen Framing.Line 65536 (128 ∷ []) true ≡ record { text = []; verdict = Rest 0 } }
    ensures spelt { translation_between Framing.Line Framing.VLen 65536 (replicate 200 97 ++ 10 ∷ []) true
        ≡ record { text = 200 ∷ 1 ∷ replicate 200 97; verdict = End } }
    ensures too_big { translation_between Framing.VLen Framing.Len4 299 (172 ∷ 2 ∷ replicate 300 97) true ≡ record { text = []; verdict = Bad 0 (BadKind.TooBig 300) } }
    ensures greatest { translation_between Framing.Line Framing.Line 268435455 (97 ∷ []) true ≡ record { text = 97 ∷ 10 ∷ []; verdict = End } }
    ensures empty { front Framing.VLen 0 (0 ∷ []) ≡ Whole [] [] }
    ensures two_groups { spelling Framing.VLen (replicate 128 97) ≡ 128 ∷ 1 ∷ replicate 128 97 }
    ensures inside_head { front Framing.VLen 10 (128 ∷ 128 ∷ []) ≡ Partial }
{}
