//! Worked runs, computed from the definitions.

ghost use Rattle.std.specs.Prelude.{◌≡◌, [], ◌∷◌, length, None, Some, true, false};
ghost use Rattle.pipe_core.specs.History.{Read};
ghost use Rattle.pipe_core.specs.Progress.{held};
ghost use Rattle.pipe_core.specs.Reads.{read_is_ready, reply_to_read};
ghost use Rattle.pipe_core.specs.Legal.{IsLegal};
ghost use Rattle.pipe_core.specs.declared.reply.ReadReply.TheVariants as read;
ghost use Rattle.stream_ends.specs.Reads.{telling};
ghost use Rattle.stream_ends.specs.Cases.{first_two, four, all_five, examined, consumed, four_at_once, canceled, behind_four};

/// Five bytes that come in reads of 2, 2 and 1: each time all that is held was examined, so the source is read again. Then
/// its end is told.
pub fn reads_of_a_whole_source()
    ensures due { read_is_ready 0 [] ≡ false }
    ensures first { reply_to_read 0 first_two ≡ read.Ready false None 2 }
    ensures again { read_is_ready 0 (examined 2 0 first_two) ≡ false }
    ensures second { reply_to_read 0 four ≡ read.Ready false None 4 }
    ensures third { reply_to_read 0 all_five ≡ read.Ready false None 5 }
    ensures none { read_is_ready 0 consumed ≡ false }
    ensures end { reply_to_read 0 (telling [] ∷ consumed) ≡ read.Ready false (Some 0) 0 }
    ensures legal { IsLegal (Read 0 ∷ telling [] ∷ consumed) }
{}

/// Six bytes, of which four have room: all four are held and were examined, so a read is refused until it is canceled or
/// some are consumed.
pub fn canceled_read_of_a_full_reader()
    ensures first { reply_to_read 0 four_at_once ≡ read.Ready false None 4 }
    ensures unready { read_is_ready 0 (examined 4 0 four_at_once) ≡ false }
    ensures full { length (held (examined 4 0 four_at_once)) ≡ 4 }
    ensures canceled { reply_to_read 0 canceled ≡ read.Ready true None 4 }
    ensures behind { reply_to_read 0 behind_four ≡ read.Ready false None 2 }
    ensures legal { IsLegal (Read 0 ∷ behind_four) }
{}
