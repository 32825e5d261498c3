//! A byte pipe on one thread: what it answers, as questions about its whole history, and a control and a pipe that do so.
//! The definitions stand in `specs/`; the functions of `laws` and `cases` are their laws and worked cases, and do nothing.
#![tactic(auto)]

mod buffer;
mod cases;
mod control;
mod laws;
mod marks;
mod plain_pipe;
mod reply;

pub use buffer::Buffer;
pub use cases::{
    canceled_flush_leaves_pause, canceled_read_at_least_lets_pause, canceled_read_keeps_bytes,
    commit_during_a_lend, examined_never_falls, lend_cases, most_bytes, pause_ends_below_resume,
    read_at_least_ends_pause, read_at_least_waits, reader_gone_ends_pause, whole_run,
};
pub use control::Control;
pub use laws::{
    answers_to_all_calls, bytes_of_one_segment, cancellation_wakes_its_own_end,
    completed_end_is_never_woken, control_has_a_history, examined_in_words, latest_first,
    never_both, no_end_wakes_itself, pauses_in_words, pending_flush_is_due, plain_pauses,
    plain_pipe_has_a_history, runs_are_the_lend, waiting_read_has_seen_all, whole_loan_is_written,
};
pub use plain_pipe::PlainPipe;
pub use reply::{FlushReply, ReadReply, TooMuch, Wake};
