//! Reading the words of a command.

ghost use Rattle.std.specs.Prelude.{◌≡◌, ◌<◌, ◌≤◌, ◌+◌, ◌^◌, ◌∷◌, ℕ, List, Some, drop, length, true, IfErr, IfOk, Ok, Err};
ghost use Rattle.frame_grammar.specs.Job.{IsInRange};
ghost use Rattle.relay_words.specs.Keys.{above, number_or as number_or_of, usual_resume as usual_resume_of};
ghost use Rattle.relay_words.specs.Words.{command_of, command_with, drill_from as drill_from_of, drill_in as drill_in_of, frames_made, framing_of, is_local as is_local_of, is_threaded as is_threaded_of, job_in as job_in_of, job_of, job_with, kind_of, texts, IfBatch, IfServe};
ghost use Rattle.relay_words.specs.Names.{AreNames};
ghost use Rattle.relay_words.specs.declared.command.Command.TheVariants.{Local};
ghost use Rattle.relay_words.specs.declared.command.Kind.TheVariants as kinds;

use crate::batch::batch_in;
use crate::command::{Command, Kind, LocalCommand, ThreadedCommand, Usage};
use crate::keys::{Given, Keys, keys_in, number_within};
use crate::serve::serve_in;
use frame_grammar::{Framing, Job};

/// The greatest payload where no key says it, in bytes.
const USUAL_MAX: u64 = 65_536;

/// The size of a segment where no key says it, in bytes.
const USUAL_SEG: u64 = 4_096;

/// The pause threshold where no key says it, in bytes.
const USUAL_PAUSE: u64 = 65_536;

/// The resume threshold where no key says it and the pause threshold isn't below it, in bytes.
const USUAL_RESUME: u64 = 32_768;

/// The greatest seed of a drill.
const GREATEST_SEED: u64 = 4_294_967_295;

/// The greatest number of frames of a drill.
const GREATEST_COUNT: u64 = 1_000_000;

/// Reads the words of a command, without the program's name. It takes no memory.
pub fn read_words(words: &[String]) -> Result<Command, Usage>
    ensures command { IfOk result (λ command. command_of (texts words.now) ≡ Ok command) }
    ensures usage { IfErr result (λ usage. command_of (texts words.now) ≡ Err usage.word) }
    ensures in_range { IfOk result (λ command. IsInRange (job_of command)) }
    ensures limit { IfOk result (λ command. (job_of command).limit ≡ 2 ^ 40) }
    ensures few { IfOk result (λ command. frames_made command ≤ 1000000) }
    ensures workers { IfOk result (λ command. IfBatch command (λ workers job names_from. (1 ≤ workers) × (workers ≤ 16))) }
    ensures names_from { IfOk result (λ command. IfBatch command (λ workers job names_from. names_from < length words.now)) }
    ensures names { IfOk result (λ command. IfBatch command (λ workers job names_from. AreNames (drop names_from (texts words.now)))) }
    ensures addresses { IfOk result (λ command. IfServe command (λ listen target count job. (listen ≡ 1) × (target ≡ 2) × (2 < length words.now))) }
    ensures connections { IfOk result (λ command. IfServe command (λ listen target count job. (1 ≤ count) × (count ≤ 1000000))) }
{
    match command_in(words) {
        Ok(command) => Ok(command),
        Err(word) => Err(Usage { word }),
    }
}

/// Reads the words of a command on one thread, of which `is_local` is true. It takes no memory.
pub fn read_local(words: &[String]) -> Result<LocalCommand, Usage>
    requires { is_local_of (texts words.now) ≡ true }
    ensures command { IfOk result (λ command. command_of (texts words.now) ≡ Ok (Local command)) }
    ensures usage { IfErr result (λ usage. command_of (texts words.now) ≡ Err usage.word) }
    ensures in_range { IfOk result (λ command. IsInRange (job_of (Local command))) }
{
    let Some((command, rest)) = words.split_first() else {
        return Err(Usage { word: 0 });
    };
    match command.as_str() {
        "copy" => read_copy(rest),
        _ => Err(Usage { word: 0 }),
    }
}

/// The words behind `copy`.
fn read_copy(words: &[String]) -> Result<LocalCommand, Usage>
    ensures command { IfOk result (λ command. command_with kinds.Copy (texts words.now) ≡ Ok (Local command)) }
    ensures usage { IfErr result (λ usage. command_with kinds.Copy (texts words.now) ≡ Err usage.word) }
    ensures in_range { IfOk result (λ command. IsInRange (job_of (Local command))) }
{
    match job_in(words) {
        Ok(job) => Ok(LocalCommand::Copy { job }),
        Err(word) => Err(Usage { word }),
    }
}

/// Whether the words ask for no more than one thread: the first isn't `pump`, `drill`, `batch` or `serve`, or there is none.
pub fn is_local(words: &[String]) -> bool
    ensures { result ≡ is_local_of (texts words.now) }
{
    match words.split_first() {
        Some((command, _)) => !is_threaded(command.as_str()),
        None => true,
    }
}

fn is_threaded(word: &str) -> bool
    ensures { result ≡ is_threaded_of word.now }
{
    matches!(word, "pump" | "drill" | "batch" | "serve")
}

/// The command, or the index of the word that can't be read.
fn command_in(words: &[String]) -> Result<Command, usize>
    ensures value { result ≡ command_of (texts words.now) }
    ensures in_range { IfOk result (λ command. IsInRange (job_of command)) }
    ensures limit { IfOk result (λ command. (job_of command).limit ≡ 2 ^ 40) }
    ensures few { IfOk result (λ command. frames_made command ≤ 1000000) }
{
    let Some((command, rest)) = words.split_first() else {
        return Err(0);
    };
    let Some(kind) = kind(command.as_str()) else {
        return Err(0);
    };
    match kind {
        Kind::Copy => Ok(Command::Local(LocalCommand::Copy { job: job_in(rest)? })),
        Kind::Pump => Ok(Command::Threaded(ThreadedCommand::Pump { job: job_in(rest)? })),
        Kind::Drill => drill_in(rest),
        Kind::Batch => batch_in(rest),
        Kind::Serve => serve_in(rest),
    }
}

fn kind(word: &str) -> Option<Kind>
    ensures { result ≡ kind_of word.now }
{
    match word {
        "copy" => Some(Kind::Copy),
        "pump" => Some(Kind::Pump),
        "drill" => Some(Kind::Drill),
        "batch" => Some(Kind::Batch),
        "serve" => Some(Kind::Serve),
        _ => None,
    }
}

/// The drill of the words behind its command, or the index of the word that can't be read.
fn drill_in(words: &[String]) -> Result<Command, usize>
    ensures value { result ≡ drill_in_of (texts words.now) }
    ensures in_range { IfOk result (λ command. IsInRange (job_of command)) }
    ensures limit { IfOk result (λ command. (job_of command).limit ≡ 2 ^ 40) }
    ensures few { IfOk result (λ command. frames_made command ≤ 1000000) }
{
    let Some((seed, rest)) = words.split_first() else {
        return Err(1);
    };
    let Some(seed) = number_within(0, GREATEST_SEED, seed.as_str()) else {
        return Err(1);
    };
    drill_from(seed as u32, rest)
}

/// The drill from a seed and the words behind it, or the index of the word that can't be read.
fn drill_from(seed: u32, words: &[String]) -> Result<Command, usize>
    ensures value { result ≡ drill_from_of seed (texts words.now) }
    ensures in_range { IfOk result (λ command. IsInRange (job_of command)) }
    ensures limit { IfOk result (λ command. (job_of command).limit ≡ 2 ^ 40) }
    ensures few { IfOk result (λ command. frames_made command ≤ 1000000) }
{
    let Some((count, rest)) = words.split_first() else {
        return Err(2);
    };
    let Some(count) = number_within(0, GREATEST_COUNT, count.as_str()) else {
        return Err(2);
    };
    match job_in(rest) {
        Ok(job) => Ok(Command::Threaded(ThreadedCommand::Drill {
            seed,
            count: count as u32,
            job,
        })),
        Err(word) => Err(word + 2),
    }
}

/// The job of the words behind a command, or the index of the word that can't be read, where the command has the index 0.
fn job_in(words: &[String]) -> Result<Job, usize>
    ensures value { result ≡ job_in_of (texts words.now) }
    ensures in_range { IfOk result (λ job. IsInRange job) }
    ensures limit { IfOk result (λ job. job.limit ≡ 2 ^ 40) }
    ensures word { IfErr result (λ word. word ≤ 3 + length words.now) }
{
    read_job(words)
}

fn read_job(words: &[String]) -> Result<Job, usize>
    ensures { result ≡ job_in_of (texts words.now) }
{
    let Some((input, rest)) = words.split_first() else {
        return Err(1);
    };
    let Some(input) = framing(input.as_str()) else {
        return Err(1);
    };
    let Some((output, keys)) = rest.split_first() else {
        return Err(2);
    };
    let Some(output) = framing(output.as_str()) else {
        return Err(2);
    };
    job_of_keys(input, output, keys)
}

/// The job of two framings and the keys behind them, or the index of the word that can't be read, where the first key has the
/// index 3.
pub(crate) fn job_of_keys(input: Framing, output: Framing, keys: &[String]) -> Result<Job, usize>
    ensures { (first second : List ℕ) → Some input ≡ framing_of first → Some output ≡ framing_of second →
        result ≡ job_in_of (first ∷ second ∷ texts keys.now) }
{
    let keys = keys_in(keys, keys.len() + 3)?;
    job(input, output, keys)
}

pub(crate) fn framing(word: &str) -> Option<Framing>
    ensures { result ≡ framing_of word.now }
{
    match word {
        "len4" => Some(Framing::Len4),
        "len2" => Some(Framing::Len2),
        "vlen" => Some(Framing::VLen),
        "line" => Some(Framing::Line),
        _ => None,
    }
}

/// The job, with the usual numbers where no key says them, or the index of a resume threshold above the pause threshold.
pub(crate) fn job(input: Framing, output: Framing, keys: Keys) -> Result<Job, usize>
    ensures { result ≡ job_with input output keys }
{
    let pause = number_or(USUAL_PAUSE, keys.pause);
    if let Some(word) = resume_above(pause, keys.resume) {
        return Err(word);
    }
    Ok(Job {
        input,
        output,
        max: number_or(USUAL_MAX, keys.max),
        seg: number_or(USUAL_SEG, keys.seg) as usize,
        pause,
        resume: number_or(usual_resume(pause), keys.resume),
        limit: 1 << 40,
    })
}

fn number_or(usual: u64, key: Option<Given>) -> u64
    ensures { result ≡ number_or_of usual key }
{
    match key {
        None => usual,
        Some(given) => given.number,
    }
}

/// The index of a resume threshold that is given and above the pause threshold.
fn resume_above(pause: u64, resume: Option<Given>) -> Option<usize>
    ensures { result ≡ above pause resume }
{
    match resume {
        Some(resume) if pause != 0 && resume.number > pause => Some(resume.word),
        _ => None,
    }
}

/// The resume threshold where no key says it, in bytes.
fn usual_resume(pause: u64) -> u64
    ensures { result ≡ usual_resume_of pause }
{
    if pause == 0 {
        USUAL_RESUME
    } else {
        USUAL_RESUME.min(pause)
    }
}
