//! What words ask for.

use frame_grammar::Job;
use thiserror::Error;

/// What a command does.
#[derive(Clone, Copy, Debug, PartialEq, Eq)]
pub enum Command {
    /// It runs on one thread, and waits for nobody.
    Local(LocalCommand),
    /// It runs on more than one thread.
    Threaded(ThreadedCommand),
}

/// What a command on one thread does.
#[derive(Clone, Copy, Debug, PartialEq, Eq)]
pub enum LocalCommand {
    /// Relays the source to the sink.
    Copy { job: Job },
}

/// What a command on more than one thread does.
#[derive(Clone, Copy, Debug, PartialEq, Eq)]
pub enum ThreadedCommand {
    /// Relays the source to the sink, on two threads.
    Pump {
        job: Job,
    },
    /// Relays an input of `count` frames that is made from `seed` into memory, on two threads, and writes to the sink how many
    /// frames and bytes that were.
    Drill {
        seed: u32,
        count: u32,
        job: Job,
    },
    /// Relays an input for each name to an output of that name, by `workers` threads. The names are the words from the one with
    /// the index `names_from` on, where the command has the index 0.
    Batch {
        workers: usize,
        job: Job,
        names_from: usize,
    },
    /// Accepts `count` connections, one after the other, and relays each to a new one. `listen` and `target` are the indices of
    /// the words with the address to listen at and that to connect to, where the command has the index 0.
    Serve {
        listen: usize,
        target: usize,
        count: u32,
        job: Job,
    },
}

/// A command without its numbers and its job, as its word names it.
#[derive(Clone, Copy)]
pub enum Kind {
    Copy,
    Pump,
    Drill,
    Batch,
    Serve,
}

/// Words that are no command. `word` is the index, from 0, of the first one that can't be read where it stands, or the
/// number of words where one is missing. Where there is neither, it is the index of a `resume` above the pause threshold.
#[derive(Clone, Copy, Debug, PartialEq, Eq, Error)]
#[error("usage: word {word}")]
pub struct Usage {
    pub word: usize,
}
