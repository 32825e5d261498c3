//! What the two halves of a side's knowledge say.

use ghost_halves::Initial;
use std::marker::Model;

/// The segments that the reader has. No value of the type is made.
#[derive(Drop)]
pub struct ReaderSide {
    never: (),
}

impl Model for ReaderSide {
    ghost use Rattle.std.specs.Prelude.{[]};
    ghost use Rattle.pipe_state.specs.Sides.{ReaderHas};

    ghost Value = { ReaderHas };

    ghost view = { λ side. record { segments = []; skip = 0 } };
}

impl Initial for ReaderSide {
    ghost use Rattle.std.specs.Prelude.{[]};

    ghost initial = { record { segments = []; skip = 0 } };
}

/// The segments that the writer has not finished. No value of the type is made.
#[derive(Drop)]
pub struct WriterSide {
    never: (),
}

impl Model for WriterSide {
    ghost use Rattle.std.specs.Prelude.{[]};
    ghost use Rattle.pipe_state.specs.Sides.{WriterHas};

    ghost Value = { WriterHas };

    ghost view = { λ side. record { segments = []; hint = 0 } };
}

impl Initial for WriterSide {
    ghost use Rattle.std.specs.Prelude.{[]};

    ghost initial = { record { segments = []; hint = 0 } };
}

/// The blocks that a pipe is made of. No value of the type is made.
#[derive(Drop)]
pub struct MadeOf {
    never: (),
}

impl Model for MadeOf {
    ghost use Rattle.std.specs.Prelude.{[], List};
    ghost use Rattle.pipe_state.specs.Released.{BlockName};

    ghost Value = { List BlockName };

    ghost view = { λ made. [] };
}

impl Initial for MadeOf {
    ghost use Rattle.std.specs.Prelude.{[]};

    ghost initial = { [] };
}
