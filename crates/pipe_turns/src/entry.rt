//! The entries of a pipe's history, and the name of a pipe.

use std::marker::Model;

/// An entry of a pipe's history: a call of one of its ends. Entries stand in contracts alone, and no value of this type
/// is ever made.
#[derive(Drop)]
pub struct Entry {
    never: (),
}

impl Model for Entry {
    ghost use Rattle.pipe_core.specs.History.{Call, Read};

    ghost Value = { Call };

    ghost view = { λ entry. Read 0 };
}

/// What a pipe, its state and its seats are known by. It stands in contracts alone, and no value of this type is ever made.
#[derive(Drop)]
pub struct PipeName {
    never: (),
}

impl Model for PipeName {
    ghost use Rattle.std.specs.Prelude.{[]};
    ghost use Rattle.pipe_turns.specs.Name.{Name};

    ghost Value = { Name };

    ghost view = { λ name. record { options = record { segment = 0; segments = 0; pause = 0; resume = 0 }; blocks = []; reader = 0; writer = 0 } };
}
