//! A byte pipe whose two ends two threads may use. What it answers is told by its history, which has the definitions of
//! `pipe_core`.
#![tactic(auto)]

mod canceling;
mod ends;
mod faults;
mod laws;
mod local;
mod local_writer;
mod options;
mod parking;
mod parts;
mod pipe;
mod reading;
mod waiting;
mod writing;

pub use ends::{
    Canceller, ReaderDone, ReaderEnd, ReaderRefused, WriterDone, WriterEnd, WriterRefused,
};
pub use faults::{LocalRoomFault, RoomFault};
pub use laws::{
    canceller_has_its_seat, done_reader_has_its_seat, done_writer_has_its_seat,
    local_history_grows, local_pipe_has_a_history, local_segments_have_a_byte,
    others_are_heard_first, reader_has_its_seat, reader_is_lent_what_it_has_seen,
    segments_have_a_byte, writer_has_its_seat,
};
pub use local::LocalPipe;
pub use options::{MakeError, MakeRefused};
pub use parking::Attempts;
pub use pipe::{Closed, Made, Pipe};
pub use pipe_state::{Field, Full, Options};
pub use pipe_turns::{FlushFault, TryFault};
