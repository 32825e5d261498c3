//! The words of a batch.

ghost use Rattle.std.specs.Prelude.{◌≡◌, ◌≤◌, ◌^◌, IfOk};
ghost use Rattle.frame_grammar.specs.Job.{IsInRange};
ghost use Rattle.relay_words.specs.Words.{batch_in as batch_in_of, batch_with as batch_with_of, frames_made, job_of, names_part, relay_part, texts};

use crate::command::{Command, ThreadedCommand};
use crate::keys::{keys_in, number_within, split_keys};
use crate::names::misnamed;
use crate::words::{framing, job};

/// The greatest number of workers.
const MOST_WORKERS: u64 = 16;

/// The batch of the words behind its command, or the index of the word that can't be read.
pub(crate) fn batch_in(words: &[String]) -> Result<Command, usize>
    ensures value { result ≡ batch_in_of (texts words.now) }
    ensures in_range { IfOk result (λ command. IsInRange (job_of command)) }
    ensures limit { IfOk result (λ command. (job_of command).limit ≡ 2 ^ 40) }
    ensures few { IfOk result (λ command. frames_made command ≤ 1000000) }
{
    read_batch(words)
}

fn read_batch(words: &[String]) -> Result<Command, usize>
    ensures { result ≡ batch_in_of (texts words.now) }
{
    let Some((workers, rest)) = words.split_first() else {
        return Err(1);
    };
    let Some(workers) = number_within(1, MOST_WORKERS, workers.as_str()) else {
        return Err(1);
    };
    batch_with(workers as usize, rest)
}

/// The batch of the words behind the number of its workers.
fn batch_with(workers: usize, words: &[String]) -> Result<Command, usize>
    ensures { result ≡ batch_with_of workers (relay_part (texts words.now)) (names_part (texts words.now)) }
{
    let Some((input, rest)) = words.split_first() else {
        return Err(2);
    };
    let Some(input) = framing(input.as_str()) else {
        return Err(2);
    };
    let Some((output, rest)) = rest.split_first() else {
        return Err(3);
    };
    let Some(output) = framing(output.as_str()) else {
        return Err(3);
    };
    let (keys, names) = split_keys(rest);
    let names_from = 4 + keys.len();
    let keys = match keys_in(keys, 3 + keys.len()) {
        Ok(keys) => keys,
        Err(word) => return Err(1 + word),
    };
    if let Some(at) = misnamed(names) {
        return Err(names_from + at);
    }
    if names.is_empty() {
        return Err(names_from);
    }
    match job(input, output, keys) {
        Ok(job) => Ok(Command::Threaded(ThreadedCommand::Batch {
            workers,
            job,
            names_from,
        })),
        Err(word) => Err(1 + word),
    }
}
