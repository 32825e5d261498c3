//! How a pipe is made, and how it is closed.

ghost use Rattle.std.specs.Prelude.{◌≡◌, ◌≤◌, [], length, None, IfOk, IfErr};
ghost use Rattle.std.specs.Vec.{vec_capacity};
ghost use Rattle.turn_cell.specs.Seat.{IsOf, new_seat};
ghost use Rattle.pipe_state.specs.Options.{first_bad};
ghost use Rattle.pipe_state.specs.Released.{names_of};
ghost use Rattle.pipe_state.specs.Segments.{AreSized};
ghost use Rattle.pipe_state.specs.Lying.{HaveOwnIds};
ghost use Rattle.pipe_turns.specs.Ends.{ReadsFor, WritesFor};
ghost use Rattle.pipe_shared.specs.Made.{IsBuilt, RefusesOptions, ClosesPipe, no_chain};

use crate::ends::{Canceller, ReaderDone, ReaderEnd, WriterDone, WriterEnd};
use crate::options::{MakeError, MakeRefused};
use crate::parts::{Parts, blocks_of};
use crossbeam_utils::sync::{Parker, Unparker};
use pipe_core::Wake;
use pipe_state::{Options, Reading, Writing};
use pipe_turns::SharedPipe;
use seg_block::Block;
use std::alloc::{AllocError, Global};
use std::marker::Model;
use turn_cell::{TurnCell, TurnSeat};

/// A byte pipe whose two ends may be used by two threads, and cancelled by a third: .NET's `Pipe`.
///
/// A try call makes one exchange at most, by which it takes the turn or is refused as Busy. It doesn't wait. The call of
/// the same name without `try_` is that call, made again until it has an answer; its thread may sleep in between, and is
/// woken by the other end. No call but `make` takes memory, no byte is copied, and no lock stands round the pipe.
#[derive(Drop)]
pub struct Pipe {
    pub(crate) cell: TurnCell<SharedPipe>,
    pub(crate) options: Options,
    to_reader: Unparker,
    to_writer: Unparker,
}

// Clauses see which pipe it is, and what it was made with as the name of its states.
impl Model for Pipe {
    ghost use Rattle.turn_cell.specs.Seat.{CellState};
    ghost use Rattle.pipe_turns.specs.Name.{Name};
    ghost use Rattle.pipe_shared.specs.Made.{IsPipe};

    ghost Value = { CellState Name };

    ghost view = { λ p. p.cell };

    ghost invariant = { λ p. IsPipe p.cell p.options };
}

/// What a pipe has carried, and its blocks.
#[derive(Drop)]
pub struct Closed {
    /// How many bytes were committed before the reader completed.
    pub committed: u64,
    /// How many of them the reader has consumed.
    pub consumed: u64,
    /// All blocks that the pipe was made of, in the list that it was handed.
    pub blocks: Vec<Block>,
}

/// A new pipe and its three ends.
pub type Made = (Pipe, WriterEnd, ReaderEnd, Canceller);

// What `make` puts together.
#[derive(Drop)]
struct Built {
    cell: TurnCell<SharedPipe>,
    writer: TurnSeat<SharedPipe>,
    reader: TurnSeat<SharedPipe>,
    canceller: TurnSeat<SharedPipe>,
    writing: Writing,
    reading: Reading,
}

// How the two ends sleep, and are woken.
#[derive(Drop)]
struct Parking {
    writer: Parker,
    reader: Parker,
    to_writer: Unparker,
    to_reader: Unparker,
}

impl Pipe {
    /// A pipe with these options over these blocks, and its three ends. All its memory but the blocks is taken here: four
    /// rings, each with a place for every block.
    pub fn make(alloc: Global, options: Options, blocks: Vec<Block>) -> Result<Made, MakeRefused>
        requires count { length blocks.items ≡ options.segments }
        requires sized { AreSized options.segment (names_of blocks.items) }
        requires own { HaveOwnIds (names_of blocks.items) }
        ensures good { IfOk result (λ made. first_bad options ≡ None) }
        ensures refused { IfErr result (λ refused. RefusesOptions options refused.error) }
        ensures back { IfErr result (λ refused. names_of refused.blocks.items ≡ names_of blocks.items) }
        ensures options { IfOk result (λ made. made.0.name.options ≡ options) }
        ensures blocks { IfOk result (λ made. made.0.name.blocks ≡ names_of blocks.items) }
        ensures seats { IfOk result (λ made. made.0.seats ≡ 3) }
        ensures writer { IfOk result (λ made. made.1 ≡ record { seat = new_seat made.0 0; draft = []; free = []; hint = 0 }) }
        ensures reader { IfOk result (λ made. made.2 ≡ record { seat = new_seat made.0 1; lent = None; chain = no_chain made.0.name.options.segments }) }
        ensures canceller { IfOk result (λ made. made.3 ≡ new_seat made.0 2) }
    {
        if let Some((field, number)) = options.first_bad() {
            return Err(MakeRefused {
                error: MakeError::BadOptions { field, number },
                blocks,
            });
        }
        let Ok(parking) = park(alloc) else {
            return Err(MakeRefused {
                error: MakeError::OutOfMemory,
                blocks,
            });
        };
        match build(alloc, options, blocks) {
            Ok(built) => Ok(put_together(options, built, parking)),
            Err(blocks) => Err(MakeRefused {
                error: MakeError::OutOfMemory,
                blocks,
            }),
        }
    }

    /// What the pipe has carried, once both its ends have completed, and all its blocks.
    pub fn close(self, writer: WriterDone, reader: ReaderDone, canceller: Canceller) -> Closed
        requires writer { IsOf self writer }
        requires reader { IsOf self reader }
        requires canceller { IsOf self canceller }
        ensures { ClosesPipe self.name.blocks writer reader canceller result }
    {
        let Pipe { cell, .. } = self;
        let WriterDone { seat: writer } = writer;
        let ReaderDone { seat: reader } = reader;
        let SharedPipe { pipe, list, .. } = cell.close_three(writer, reader, canceller.seat);
        let mut blocks = list;
        let (committed, consumed) = pipe.close(&mut blocks);
        Closed {
            committed,
            consumed,
            blocks,
        }
    }

    // Wakes the ends that a call has made ready.
    pub(crate) fn unpark(&self, wake: Wake) {
        if wake.reader {
            self.to_reader.unpark();
        }
        if wake.writer {
            self.to_writer.unpark();
        }
    }

    // The same after a call that may have made room. No wake tells of a writer that waits for room.
    pub(crate) fn unpark_for_room(&self, wake: Wake) {
        self.unpark(Wake {
            writer: true,
            ..wake
        });
    }
}

// Means to sleep and to wake, for both ends.
fn park(alloc: Global) -> Result<Parking, AllocError> {
    let writer = Parker::new(alloc)?;
    let reader = Parker::new(alloc)?;
    let to_writer = writer.unparker().clone()?;
    let to_reader = reader.unparker().clone()?;
    Ok(Parking {
        writer,
        reader,
        to_writer,
        to_reader,
    })
}

// The state, with its seats, and the parts of the ends. Where there is no memory for them the blocks come back.
fn build(alloc: Global, options: Options, blocks: Vec<Block>) -> Result<Built, Vec<Block>>
    requires good { first_bad options ≡ None }
    requires count { length blocks.items ≡ options.segments }
    requires sized { AreSized options.segment (names_of blocks.items) }
    requires own { HaveOwnIds (names_of blocks.items) }
    ensures back { IfErr result (λ back. names_of back.items ≡ names_of blocks.items) }
    ensures built { IfOk result (λ built. IsBuilt options (names_of blocks.items) built) }
{
    let Parts {
        pipe,
        writing,
        reading,
        list,
    } = Parts::make(alloc, options, blocks)?;
    let state = SharedPipe {
        pipe,
        options,
        list,
    };
    match TurnCell::make(alloc, state, 3) {
        Ok((cell, seats)) => {
            let (writer, reader, canceller) = cell.three_new(seats);
            Ok(Built {
                cell,
                writer,
                reader,
                canceller,
                writing,
                reading,
            })
        }
        Err(refused) => {
            let SharedPipe { pipe, list, .. } = refused.state;
            Err(blocks_of(pipe, list))
        }
    }
}

// The pipe and its ends, of what was built.
fn put_together(options: Options, built: Built, parking: Parking) -> Made
    requires good { first_bad options ≡ None }
    requires built { IsBuilt options built.cell.name.blocks built }
    ensures pipe { result.0 ≡ built.cell }
    ensures writer { result.1 ≡ record { seat = new_seat built.cell 0; draft = []; free = []; hint = 0 } }
    ensures reader { result.2 ≡ record { seat = new_seat built.cell 1; lent = None; chain = no_chain built.cell.name.options.segments } }
    ensures canceller { result.3 ≡ new_seat built.cell 2 }
{
    let Built {
        cell,
        writer,
        reader,
        canceller,
        writing,
        reading,
    } = built;
    let pipe = Pipe {
        cell,
        options,
        to_reader: parking.to_reader,
        to_writer: parking.to_writer,
    };
    let writer = WriterEnd {
        seat: writer,
        part: writing,
        parker: parking.writer,
    };
    let reader = ReaderEnd {
        seat: reader,
        part: reading,
        lending: false,
        parker: parking.reader,
    };
    (pipe, writer, reader, Canceller { seat: canceller })
}
