//! The words of a server.

ghost use Rattle.std.specs.Prelude.{◌≡◌, ◌≤◌, ◌^◌, IfOk};
ghost use Rattle.frame_grammar.specs.Job.{IsInRange};
ghost use Rattle.relay_words.specs.Words.{frames_made, is_address as is_address_of, job_of, serve_from as serve_from_of, serve_in as serve_in_of, texts};

use crate::command::{Command, ThreadedCommand};
use crate::keys::number_within;
use crate::words::{framing, job_of_keys};

/// The length of the longest address, in bytes.
const LONGEST_ADDRESS: usize = 255;

/// The greatest number of connections.
const MOST_CONNECTIONS: u64 = 1_000_000;

/// The server of the words behind its command, or the index of the word that can't be read.
pub(crate) fn serve_in(words: &[String]) -> Result<Command, usize>
    ensures value { result ≡ serve_in_of (texts words.now) }
    ensures in_range { IfOk result (λ command. IsInRange (job_of command)) }
    ensures limit { IfOk result (λ command. (job_of command).limit ≡ 2 ^ 40) }
    ensures few { IfOk result (λ command. frames_made command ≤ 1000000) }
{
    read_serve(words)
}

fn read_serve(words: &[String]) -> Result<Command, usize>
    ensures { result ≡ serve_in_of (texts words.now) }
{
    let Some((listen, rest)) = words.split_first() else {
        return Err(1);
    };
    if !is_address(listen.as_str()) {
        return Err(1);
    }
    let Some((target, rest)) = rest.split_first() else {
        return Err(2);
    };
    if !is_address(target.as_str()) {
        return Err(2);
    }
    serve_from(rest)
}

/// Whether a word can be an address. What it means shows when it is opened.
fn is_address(word: &str) -> bool
    ensures { result ≡ is_address_of word.now }
{
    1 <= word.len() && word.len() <= LONGEST_ADDRESS
}

/// The server of the words behind its two addresses.
fn serve_from(words: &[String]) -> Result<Command, usize>
    ensures { result ≡ serve_from_of (texts words.now) }
{
    let Some((input, rest)) = words.split_first() else {
        return Err(3);
    };
    let Some(input) = framing(input.as_str()) else {
        return Err(3);
    };
    let Some((output, rest)) = rest.split_first() else {
        return Err(4);
    };
    let Some(output) = framing(output.as_str()) else {
        return Err(4);
    };
    let Some((count, keys)) = rest.split_first() else {
        return Err(5);
    };
    let Some(count) = number_within(1, MOST_CONNECTIONS, count.as_str()) else {
        return Err(5);
    };
    match job_of_keys(input, output, keys) {
        Ok(job) => Ok(Command::Threaded(ThreadedCommand::Serve {
            listen: 1,
            target: 2,
            count: count as u32,
            job,
        })),
        Err(word) => Err(word + 3),
    }
}
