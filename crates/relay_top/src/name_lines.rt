//! The lines of a batch, one for each name, and the line of the first name whose status isn't clean.

ghost use Rattle.std.specs.Prelude.{◌≡◌, ◌≤◌, ◌+◌, ◌*◌, ◌++◌, [], length, vec_capacity, vec_len};
ghost use Rattle.std.specs.List.{All};
ghost use Rattle.relay_words.specs.Names.{IsName};
ghost use Rattle.relay_words.specs.Words.{texts};
ghost use Rattle.relay_model.specs.Answers.{EndsLike, Sums, answer_lines, first_failed};

use edge_core::Sink;
use relay_model::{Answer, Status, status_of_answer};
use relay_threads::{add_line, report_on_answer, tell_broken_off, write_summary};

/// Writes the line of each name and flushes the sink once, and answers the status of the command. `lines` has room for them.
pub(crate) fn sum_up<K: Sink, E: Sink>(
    names: &[String],
    answers: &[Answer],
    lines: Vec<u8>,
    sink: &mut K,
    faults: &mut E,
) -> Status
    requires empty { lines.items ≡ [] }
    requires room { 281 * length names.now ≤ vec_capacity lines }
    requires names { All IsName (texts names.now) }
    requires each { length answers.now ≡ length names.now }
    ensures { Sums (texts names.now) answers.now result (K.state sink.old) (K.state sink.new) (E.state faults.old) (E.state faults.new) }
{
    let lines = name_lines(names, answers, lines);
    match write_summary(sink, lines.as_slice()) {
        Ok(()) => end_like_first(names, answers, faults),
        Err(broken) => tell_broken_off(faults, broken),
    }
}

/// The lines of all names.
fn name_lines(names: &[String], answers: &[Answer], lines: Vec<u8>) -> Vec<u8>
    requires empty { lines.items ≡ [] }
    requires room { 281 * length names.now ≤ vec_capacity lines }
    requires names { All IsName (texts names.now) }
    requires each { length answers.now ≡ length names.now }
    ensures { result.items ≡ answer_lines (texts names.now) answers.now }
{
    let mut lines = lines;
    let (mut names, mut answers) = (names, answers);
    while let Some((name, other_names)) = names.split_first() {
        let Some((answer, other_answers)) = answers.split_first() else {
            unreachable!()
        };
        add_line(&mut lines, name.as_str(), answer);
        (names, answers) = (other_names, other_answers);
    }
    lines
}

/// Tells of the first name whose status isn't clean, and answers that status.
fn end_like_first<E: Sink>(names: &[String], answers: &[Answer], faults: &mut E) -> Status
    requires { length answers.now ≡ length names.now }
    ensures { EndsLike (first_failed (texts names.now) answers.now) result (E.state faults.old) (E.state faults.new) }
{
    let (mut names, mut answers) = (names, answers);
    while let Some((name, other_names)) = names.split_first() {
        let Some((answer, other_answers)) = answers.split_first() else {
            unreachable!()
        };
        let status = status_of_answer(answer);
        if !status.is_clean() {
            report_on_answer(faults, name.as_str(), answer);
            return status;
        }
        (names, answers) = (other_names, other_answers);
    }
    Status::Clean
}
