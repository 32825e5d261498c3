//! Worked cases of the definitions, computed by the check. These functions do nothing.

ghost use Rattle.std.specs.Prelude.{◌≡◌, ◌==◌, [], ◌∷◌, None, Some, position};
ghost use Rattle.std.specs.List.{common_prefix_len, count_by};
ghost use Rattle.byte_kernels.specs.Scan.{last_position};

/// Where a byte stands in a list, from its front and from its back.
pub fn scan_cases()
    ensures first { position (λ byte. byte == 10) (97 ∷ 10 ∷ 98 ∷ 10 ∷ 99 ∷ []) ≡ Some 1 }
    ensures last { last_position (λ byte. byte == 10) (97 ∷ 10 ∷ 98 ∷ 10 ∷ 99 ∷ []) ≡ Some 3 }
    ensures none_first { position (λ byte. byte == 10) (97 ∷ 98 ∷ []) ≡ None }
    ensures none_last { last_position (λ byte. byte == 10) (97 ∷ 98 ∷ []) ≡ None }
    ensures nothing { last_position (λ byte. byte == 10) [] ≡ None }
{}

/// How many bytes of a list are a given one.
pub fn count_cases()
    ensures two { count_by (λ byte. byte == 10) (97 ∷ 10 ∷ 98 ∷ 10 ∷ 99 ∷ []) ≡ 2 }
    ensures none { count_by (λ byte. byte == 10) (97 ∷ 98 ∷ []) ≡ 0 }
{}

/// How far two lists begin alike.
pub fn front_cases()
    ensures differ { common_prefix_len ◌==◌ (97 ∷ 98 ∷ 99 ∷ []) (97 ∷ 98 ∷ 100 ∷ []) ≡ 2 }
    ensures shorter { common_prefix_len ◌==◌ (97 ∷ 98 ∷ []) (97 ∷ 98 ∷ 99 ∷ []) ≡ 2 }
    ensures apart { common_prefix_len ◌==◌ (97 ∷ []) (98 ∷ []) ≡ 0 }
{}
