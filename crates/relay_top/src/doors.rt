//! Opening the devices of many names, and giving them back.

ghost use Rattle.std.specs.Prelude.{◌≡◌, ◌≢◌, ◌≤◌, ◌∷◌, [], length, map, vec_capacity, vec_len, IfErr, IfOk};
ghost use Rattle.std.specs.List.{AllZip};
ghost use Rattle.relay_words.specs.Words.{texts};
ghost use Rattle.relay_model.specs.Devices.{HasComeBack, devices_of, with_out};
ghost use Rattle.relay_top.specs.Batch.{AreFreshOf};
ghost use Rattle.relay_top.specs.Opening.{OpensNotAll, RefusesOne};

use edge_core::{DoorError, Doors};
use relay_model::Answer;
use relay_threads::{Finished, Task, give_back};
use std::alloc::Global;

/// Why not all names were opened: how an opening ended, behind so many names whose two devices were open.
#[derive(Clone, Copy)]
pub(crate) struct Refusal {
    pub(crate) error: DoorError,
    pub(crate) opened: usize,
}

/// Opens each name's source and then its sink, in the order of the names. Where one isn't opened, all that are open are given
/// back, the source of that name first.
pub(crate) fn open_all<D: Doors>(
    alloc: Global,
    names: &[String],
    doors: &mut D,
) -> Result<Vec<Task<D::Inlet, D::Outlet>>, Refusal>
    ensures fresh { IfOk result (λ tasks. AllZip (λ name task.
        AreFreshOf (D.state doors.old).told name (devices_of (D.Inlet.state task.inlet) (D.Outlet.state task.outlet))) (texts names.now) tasks.items) }
    ensures out { IfOk result (λ tasks. D.state doors.new ≡ with_out (length names.now) (D.state doors.old)) }
    ensures refused { IfErr result (λ refusal. OpensNotAll (texts names.now) refusal.error refusal.opened (D.state doors.old) (D.state doors.new)) }
{
    let Ok(tasks) = Vec::with_capacity(alloc, names.len()) else {
        return Err(Refusal {
            error: DoorError::OutOfMemory,
            opened: 0,
        });
    };
    let mut tasks = tasks;
    let mut rest = names;
    while let Some((name, behind)) = rest.split_first() {
        match open(alloc, name.as_str(), doors) {
            Ok(task) => {
                let Ok(()) = tasks.push(task) else {
                    unreachable!()
                };
            }
            Err(error) => {
                let opened = tasks.len();
                give_back_unused(tasks, doors);
                return Err(Refusal { error, opened });
            }
        }
        rest = behind;
    }
    Ok(tasks)
}

/// Opens the source and then the sink of a name. Where the sink isn't opened, the source is given back.
fn open<D: Doors>(
    alloc: Global,
    name: &str,
    doors: &mut D,
) -> Result<Task<D::Inlet, D::Outlet>, DoorError>
    ensures fresh { IfOk result (λ task. AreFreshOf (D.state doors.old).told name.now (devices_of (D.Inlet.state task.inlet) (D.Outlet.state task.outlet))) }
    ensures out { IfOk result (λ task. D.state doors.new ≡ with_out 1 (D.state doors.old)) }
    ensures refused { IfErr result (λ error. RefusesOne name.now error (D.state doors.old) (D.state doors.new)) }
{
    let inlet = doors.inlet(alloc, name)?;
    match doors.outlet(alloc, name) {
        Ok(outlet) => Ok(Task { inlet, outlet }),
        Err(error) => {
            doors.give_inlet(inlet);
            Err(error)
        }
    }
}

/// Gives back the devices of names that weren't relayed.
fn give_back_unused<D: Doors>(tasks: Vec<Task<D::Inlet, D::Outlet>>, doors: &mut D)
    requires inlets { vec_len tasks ≤ (D.state doors.old).inlets_out }
    requires outlets { vec_len tasks ≤ (D.state doors.old).outlets_out }
    ensures { HasComeBack (map (λ task. devices_of (D.Inlet.state task.inlet) (D.Outlet.state task.outlet)) tasks.items) (D.state doors.old) (D.state doors.new) }
{
    for task in tasks {
        give_back(task, doors);
    }
}

/// Gives back the devices of names that were relayed, and answers how each was. `answers` has room for that.
pub(crate) fn give_back_all<D: Doors>(
    finished: Vec<Finished<D::Inlet, D::Outlet>>,
    answers: Vec<Answer>,
    doors: &mut D,
) -> Vec<Answer>
    requires inlets { vec_len finished ≤ (D.state doors.old).inlets_out }
    requires outlets { vec_len finished ≤ (D.state doors.old).outlets_out }
    requires empty { answers.items ≡ [] }
    requires room { vec_len finished ≤ vec_capacity answers }
    ensures answers { result.items ≡ map (λ done. done.report) finished.items }
    ensures back { HasComeBack (map (λ done. devices_of (D.Inlet.state done.inlet) (D.Outlet.state done.outlet)) finished.items) (D.state doors.old) (D.state doors.new) }
{
    let mut answers = answers;
    for done in finished {
        let Finished {
            inlet,
            outlet,
            report,
        } = done;
        let Ok(()) = answers.push(report) else {
            unreachable!()
        };
        give_back(Task { inlet, outlet }, doors);
    }
    answers
}
