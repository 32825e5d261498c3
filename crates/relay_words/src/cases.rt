//! Worked cases of the definitions, computed by the check. These functions do nothing.

ghost use Rattle.std.specs.Prelude.{◌≡◌, ◌∷◌, [], codes, Some, None, Err};
ghost use Rattle.relay_words.specs.Cases.{batched_job, drilled_job, line_job, pumped_job, served_job};
ghost use Rattle.relay_words.specs.Numbers.{number_of};
ghost use Rattle.relay_words.specs.Words.{command_of};

use frame_grammar::Framing;

/// Words that are numbers, and words that are none.
pub fn number_cases()
    ensures nought { number_of (codes "0") ≡ Some 0 }
    ensures ten_digits { number_of (codes "4294967296") ≡ Some 4294967296 }
    ensures eleven_digits { number_of (codes "10000000000") ≡ None }
    ensures leading_zero { number_of (codes "01") ≡ None }
    ensures no_digit { number_of [] ≡ None }
    ensures a_sign { number_of (codes "+1") ≡ None }
    ensures a_letter { number_of (codes "1a") ≡ None }
{}

/// Words and their commands, or the index of the word that can't be read.
pub fn word_cases()
    ensures none { command_of [] ≡ Err 0 }
    ensures alone { command_of (codes "copy" ∷ []) ≡ Err 1 }
    ensures one_framing { command_of (codes "copy" ∷ codes "len4" ∷ []) ≡ Err 2 }
    ensures another_framing { command_of (codes "copy" ∷ codes "len4" ∷ codes "foo" ∷ []) ≡ Err 2 }
    ensures leading_zero { command_of (codes "copy" ∷ codes "len4" ∷ codes "line" ∷ codes "max=01" ∷ []) ≡ Err 3 }
    ensures twice { command_of (codes "copy" ∷ codes "line" ∷ codes "len4" ∷ codes "max=1" ∷ codes "max=1" ∷ []) ≡ Err 4 }
    ensures another_word { command_of (codes "copy" ∷ codes "line" ∷ codes "len4" ∷ codes "x" ∷ []) ≡ Err 3 }
    ensures another_case { command_of (codes "Copy" ∷ codes "line" ∷ codes "len4" ∷ []) ≡ Err 0 }
    ensures too_great { command_of (codes "copy" ∷ codes "line" ∷ codes "len4" ∷ codes "max=268435456" ∷ []) ≡ Err 3 }
    ensures key_twice { command_of (codes "copy" ∷ codes "line" ∷ codes "len4" ∷ codes "seg=64" ∷ codes "seg=65" ∷ []) ≡ Err 4 }
    ensures small_segment { command_of (codes "copy" ∷ codes "line" ∷ codes "len4" ∷ codes "seg=63" ∷ []) ≡ Err 3 }
    ensures no_resume { command_of (codes "copy" ∷ codes "line" ∷ codes "len4" ∷ codes "pause=0" ∷ codes "resume=0" ∷ []) ≡ Err 4 }
    ensures above_usual_pause { command_of (codes "copy" ∷ codes "line" ∷ codes "len4" ∷ codes "resume=70000" ∷ []) ≡ Err 3 }
    ensures above_pause { command_of (codes "copy" ∷ codes "line" ∷ codes "line" ∷ codes "resume=9" ∷ codes "pause=8" ∷ []) ≡ Err 3 }
    ensures above_pause_and_unread { command_of (codes "copy" ∷ codes "line" ∷ codes "line" ∷ codes "resume=9" ∷ codes "pause=8" ∷ codes "x" ∷ []) ≡ Err 5 }
    ensures groups { command_of (codes "copy" ∷ codes "line" ∷ codes "vlen" ∷ codes "max=268435455" ∷ []) ≡ line_job Framing.VLen 268435455 4096 65536 32768 }
    ensures plain { command_of (codes "copy" ∷ codes "line" ∷ codes "len2" ∷ []) ≡ line_job Framing.Len2 65536 4096 65536 32768 }
    ensures no_payload { command_of (codes "copy" ∷ codes "line" ∷ codes "len4" ∷ codes "seg=64" ∷ codes "max=0" ∷ []) ≡ line_job Framing.Len4 0 64 65536 32768 }
    ensures below_usual_resume { command_of (codes "copy" ∷ codes "line" ∷ codes "len4" ∷ codes "pause=100" ∷ []) ≡ line_job Framing.Len4 65536 4096 100 100 }
    ensures above_usual_resume { command_of (codes "copy" ∷ codes "line" ∷ codes "len4" ∷ codes "pause=40000" ∷ []) ≡ line_job Framing.Len4 65536 4096 40000 32768 }
    ensures never_pauses { command_of (codes "copy" ∷ codes "line" ∷ codes "len4" ∷ codes "pause=0" ∷ []) ≡ line_job Framing.Len4 65536 4096 0 32768 }
    ensures never_resumes { command_of (codes "copy" ∷ codes "line" ∷ codes "len4" ∷ codes "pause=0" ∷ codes "resume=70000" ∷ []) ≡ line_job Framing.Len4 65536 4096 0 70000 }
    ensures all_keys { command_of (codes "copy" ∷ codes "line" ∷ codes "len4" ∷ codes "resume=7" ∷ codes "seg=65536" ∷ codes "pause=7" ∷ codes "max=9" ∷ []) ≡ line_job Framing.Len4 9 65536 7 7 }
    ensures pump { command_of (codes "pump" ∷ codes "line" ∷ codes "len2" ∷ codes "seg=64" ∷ []) ≡ pumped_job Framing.Len2 65536 64 65536 32768 }
    ensures pump_alone { command_of (codes "pump" ∷ []) ≡ Err 1 }
    ensures pumps { command_of (codes "pumps" ∷ codes "line" ∷ codes "len2" ∷ []) ≡ Err 0 }
    ensures drill { command_of (codes "drill" ∷ codes "2" ∷ codes "1" ∷ codes "line" ∷ codes "len4" ∷ codes "seg=64" ∷ []) ≡ drilled_job 2 1 Framing.Len4 65536 64 65536 32768 }
    ensures greatest_drill { command_of (codes "drill" ∷ codes "4294967295" ∷ codes "1000000" ∷ codes "line" ∷ codes "len2" ∷ []) ≡ drilled_job 4294967295 1000000 Framing.Len2 65536 4096 65536 32768 }
    ensures seed_too_great { command_of (codes "drill" ∷ codes "4294967296" ∷ codes "1" ∷ codes "line" ∷ codes "len4" ∷ []) ≡ Err 1 }
    ensures count_too_great { command_of (codes "drill" ∷ codes "1" ∷ codes "1000001" ∷ codes "line" ∷ codes "len4" ∷ []) ≡ Err 2 }
    ensures seed_with_a_nought { command_of (codes "drill" ∷ codes "01" ∷ codes "1" ∷ codes "line" ∷ codes "len4" ∷ []) ≡ Err 1 }
    ensures drill_alone { command_of (codes "drill" ∷ []) ≡ Err 1 }
    ensures drill_without_count { command_of (codes "drill" ∷ codes "0" ∷ []) ≡ Err 2 }
    ensures drill_without_framings { command_of (codes "drill" ∷ codes "0" ∷ codes "0" ∷ []) ≡ Err 3 }
    ensures drill_of_one_framing { command_of (codes "drill" ∷ codes "0" ∷ codes "0" ∷ codes "line" ∷ []) ≡ Err 4 }
    ensures drill_with_a_key_twice { command_of (codes "drill" ∷ codes "0" ∷ codes "0" ∷ codes "line" ∷ codes "line" ∷ codes "max=1" ∷ codes "max=1" ∷ []) ≡ Err 6 }
{}

/// Words of a batch.
pub fn batch_cases()
    ensures batch_alone { command_of (codes "batch" ∷ []) ≡ Err 1 }
    ensures no_worker { command_of (codes "batch" ∷ codes "0" ∷ codes "line" ∷ codes "len4" ∷ codes "a" ∷ []) ≡ Err 1 }
    ensures too_many_workers { command_of (codes "batch" ∷ codes "17" ∷ codes "line" ∷ codes "len4" ∷ codes "a" ∷ []) ≡ Err 1 }
    ensures batch_of_one_framing { command_of (codes "batch" ∷ codes "2" ∷ codes "line" ∷ []) ≡ Err 3 }
    ensures batch_without_names { command_of (codes "batch" ∷ codes "2" ∷ codes "line" ∷ codes "len4" ∷ []) ≡ Err 4 }
    ensures batch_without_names_above_pause { command_of (codes "batch" ∷ codes "2" ∷ codes "line" ∷ codes "line" ∷ codes "resume=70000" ∷ []) ≡ Err 5 }
    ensures batch_above_pause { command_of (codes "batch" ∷ codes "2" ∷ codes "line" ∷ codes "line" ∷ codes "resume=70000" ∷ codes "a" ∷ []) ≡ Err 4 }
    ensures name_behind_a_bad_key { command_of (codes "batch" ∷ codes "2" ∷ codes "line" ∷ codes "len4" ∷ codes "max=01" ∷ codes "a" ∷ []) ≡ Err 4 }
    ensures name_of_an_outlet { command_of (codes "batch" ∷ codes "2" ∷ codes "line" ∷ codes "len4" ∷ codes "a.out" ∷ []) ≡ Err 4 }
    ensures bad_name_above_pause { command_of (codes "batch" ∷ codes "2" ∷ codes "line" ∷ codes "len4" ∷ codes "resume=70000" ∷ codes "a.out" ∷ []) ≡ Err 5 }
    ensures name_twice { command_of (codes "batch" ∷ codes "2" ∷ codes "line" ∷ codes "len4" ∷ codes "a" ∷ codes "a" ∷ []) ≡ Err 5 }
    ensures batch_of_two { command_of (codes "batch" ∷ codes "2" ∷ codes "line" ∷ codes "len4" ∷ codes "max=9" ∷ codes "a" ∷ codes "max=9" ∷ []) ≡ batched_job 2 5 Framing.Len4 9 4096 65536 32768 }
    ensures name_without_a_number { command_of (codes "batch" ∷ codes "16" ∷ codes "line" ∷ codes "len2" ∷ codes "max" ∷ []) ≡ batched_job 16 4 Framing.Len2 65536 4096 65536 32768 }
    ensures empty_name { command_of (codes "batch" ∷ codes "2" ∷ codes "line" ∷ codes "len4" ∷ [] ∷ []) ≡ Err 4 }
{}

/// Words of a server.
pub fn serve_cases()
    ensures serve_alone { command_of (codes "serve" ∷ []) ≡ Err 1 }
    ensures serve_nowhere { command_of (codes "serve" ∷ [] ∷ codes "T" ∷ codes "line" ∷ codes "len4" ∷ codes "2" ∷ []) ≡ Err 1 }
    ensures serve_to_none { command_of (codes "serve" ∷ codes "L" ∷ []) ≡ Err 2 }
    ensures serve_without_framings { command_of (codes "serve" ∷ codes "L" ∷ codes "T" ∷ []) ≡ Err 3 }
    ensures serve_of_another_framing { command_of (codes "serve" ∷ codes "L" ∷ codes "T" ∷ codes "foo" ∷ []) ≡ Err 3 }
    ensures serve_of_one_framing { command_of (codes "serve" ∷ codes "L" ∷ codes "T" ∷ codes "line" ∷ []) ≡ Err 4 }
    ensures serve_without_count { command_of (codes "serve" ∷ codes "L" ∷ codes "T" ∷ codes "line" ∷ codes "len4" ∷ []) ≡ Err 5 }
    ensures serve_none { command_of (codes "serve" ∷ codes "L" ∷ codes "T" ∷ codes "line" ∷ codes "len4" ∷ codes "0" ∷ []) ≡ Err 5 }
    ensures serve_too_many { command_of (codes "serve" ∷ codes "L" ∷ codes "T" ∷ codes "line" ∷ codes "len4" ∷ codes "1000001" ∷ []) ≡ Err 5 }
    ensures serve_with_another_word { command_of (codes "serve" ∷ codes "L" ∷ codes "T" ∷ codes "line" ∷ codes "len4" ∷ codes "2" ∷ codes "x" ∷ []) ≡ Err 6 }
    ensures serve_with_a_key_before_count { command_of (codes "serve" ∷ codes "L" ∷ codes "T" ∷ codes "line" ∷ codes "len4" ∷ codes "max=1" ∷ codes "2" ∷ []) ≡ Err 5 }
    ensures serve_with_a_key_twice { command_of (codes "serve" ∷ codes "L" ∷ codes "T" ∷ codes "line" ∷ codes "len4" ∷ codes "2" ∷ codes "max=1" ∷ codes "max=1" ∷ []) ≡ Err 7 }
    ensures serve_above_pause { command_of (codes "serve" ∷ codes "L" ∷ codes "T" ∷ codes "line" ∷ codes "len4" ∷ codes "2" ∷ codes "resume=70000" ∷ []) ≡ Err 6 }
    ensures serve_two { command_of (codes "serve" ∷ codes "L" ∷ codes "T" ∷ codes "line" ∷ codes "len4" ∷ codes "2" ∷ []) ≡ served_job 2 Framing.Len4 65536 4096 65536 32768 }
    ensures serve_most { command_of (codes "serve" ∷ codes "L" ∷ codes "T" ∷ codes "line" ∷ codes "len2" ∷ codes "1000000" ∷ codes "seg=64" ∷ []) ≡ served_job 1000000 Framing.Len2 65536 64 65536 32768 }
{}
