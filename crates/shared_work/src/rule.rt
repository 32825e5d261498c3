//! The rule of the queue of tasks, and what each kind of step tells its worker.

use crate::placed::{Placed, WorkerView};
use crossbeam_queue::protocol::{Join, Lesson, Outcome, Protocol, Split};
use std::marker::PhantomData;

/// Each task is in the queue or was taken, once.
pub struct EachOnce<T> {
    of: PhantomData<T>,
}

impl<T> Protocol<Placed<T>, WorkerView<T>> for EachOnce<T> {
    ghost use Rattle.shared_work.specs.Tasks.{IsSharedOut, first_view};

    ghost holds = { IsSharedOut };

    ghost first = { first_view };
}

/// A task is put behind the others. It takes all parts, so no other worker knows fewer tasks.
pub struct Put;

impl<T> Outcome<Placed<T>, WorkerView<T>> for Put {
    ghost use Rattle.std.specs.Prelude.{◌≡◌};
    ghost use Rattle.shared_work.specs.Tasks.{with_task};

    ghost then = { λ v x w. w ≡ with_task x v };
}

impl<T> Lesson<Placed<T>, WorkerView<T>> for Put {
    ghost use Rattle.shared_work.specs.Tasks.{AtMoment};

    ghost fact = { AtMoment };
}

/// A task is taken, or none is there.
pub struct Take;

impl<T> Outcome<Placed<T>, WorkerView<T>> for Take {
    ghost use Rattle.shared_work.specs.Tasks.{IsTaken};

    ghost then = { IsTaken };
}

impl<T> Lesson<Placed<T>, WorkerView<T>> for Take {
    ghost use Rattle.shared_work.specs.Tasks.{AtMoment};

    ghost fact = { AtMoment };
}

/// A worker gives a new one a part.
pub struct Fork;

impl<T> Split<WorkerView<T>> for Fork {
    ghost use Rattle.shared_work.specs.Tasks.{forked, new_worker};

    ghost left = { forked };

    ghost right = { new_worker };
}

/// A worker takes in another.
pub struct Meet;

impl<T> Join<WorkerView<T>> for Meet {
    ghost use Rattle.shared_work.specs.Tasks.{both, gone};

    ghost both = { both };

    ghost spent = { gone };
}
