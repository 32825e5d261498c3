//! Worked cases of the definitions, computed by the check. These functions do nothing.

ghost use Rattle.std.specs.Prelude.{◌≡◌, ◌==◌, [], ◌∷◌, Some, None, true, false, option_map, position, slice_get};
ghost use Rattle.std.specs.List.{prefix_len};
ghost use Rattle.std.specs.Int.{from_be_bytes, from_le_bytes, w16, w32, w64};
ghost use Rattle.span_seq.specs.Spans.{bytes_of};
ghost use Rattle.seq_reader.specs.Reading.{front, list_of, moved, moved_to, next_part, rest_of, rest_part};
ghost use Rattle.seq_reader.specs.Cases.{five_bytes_at, line_at};

/// What a reader has still to read.
pub fn rest_cases()
    ensures list { list_of (five_bytes_at 2) ≡ 1 ∷ 2 ∷ 3 ∷ 4 ∷ 5 ∷ [] }
    ensures rest { rest_of (five_bytes_at 2) ≡ 3 ∷ 4 ∷ 5 ∷ [] }
    ensures part { bytes_of (rest_part (five_bytes_at 2)) ≡ 3 ∷ 4 ∷ 5 ∷ [] }
    ensures next { bytes_of (next_part (five_bytes_at 1) 3) ≡ 2 ∷ 3 ∷ 4 ∷ [] }
    ensures last { slice_get (rest_of (five_bytes_at 0)) 4 ≡ Some 5 }
    ensures past { slice_get (rest_of (five_bytes_at 0)) 5 ≡ None }
{}

/// Numbers whose bytes lie in several spans.
pub fn number_cases()
    ensures be { option_map (from_be_bytes w32) (front 4 (rest_of (five_bytes_at 0))) ≡ Some 16909060 }
    ensures le { option_map (from_le_bytes w32) (front 4 (rest_of (five_bytes_at 0))) ≡ Some 67305985 }
    ensures too_few { option_map (from_be_bytes w32) (front 4 (rest_of (five_bytes_at 2))) ≡ None }
    ensures two { option_map (from_be_bytes w16) (front 2 (rest_of (line_at 4))) ≡ Some 25701 }
    ensures eight_be { option_map (from_be_bytes w64) (front 8 (1 ∷ 2 ∷ 3 ∷ 4 ∷ 5 ∷ 6 ∷ 7 ∷ 8 ∷ 9 ∷ [])) ≡ Some 72623859790382856 }
    ensures eight_le { option_map (from_le_bytes w64) (front 8 (1 ∷ 2 ∷ 3 ∷ 4 ∷ 5 ∷ 6 ∷ 7 ∷ 8 ∷ 9 ∷ [])) ≡ Some 578437695752307201 }
{}

/// Reading up to a byte, and over bytes.
pub fn search_cases()
    ensures line { option_map (λ n. bytes_of (next_part (line_at 0) n)) (position (λ byte. byte == 10) (rest_of (line_at 0))) ≡ Some (97 ∷ 98 ∷ 99 ∷ []) }
    ensures past { moved_to (line_at 0) (position (λ byte. byte == 10) (rest_of (line_at 0))) true ≡ line_at 4 }
    ensures at { moved_to (line_at 0) (position (λ byte. byte == 10) (rest_of (line_at 0))) false ≡ line_at 3 }
    ensures none { moved_to (line_at 4) (position (λ byte. byte == 10) (rest_of (line_at 4))) true ≡ line_at 4 }
    ensures one { prefix_len (λ byte. byte == 1) (rest_of (five_bytes_at 0)) ≡ 1 }
    ensures no_more { prefix_len (λ byte. byte == 1) (rest_of (five_bytes_at 1)) ≡ 0 }
    ensures moved { moved (five_bytes_at 1) 3 ≡ five_bytes_at 4 }
{}
