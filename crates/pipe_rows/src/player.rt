//! A control of which any call may be asked for: it is made where it may be.

ghost use Rattle.std.specs.Prelude.{◌≡◌};
ghost use Rattle.pipe_core.specs.Standing.{AreThresholds};
ghost use Rattle.pipe_turns.specs.Lends.{len_of};

use crate::plain::commit;
use pipe_core::{Control, FlushReply, ReadReply, Wake};
use std::marker::Model;

/// A call.
#[derive(Clone, Copy, PartialEq, Eq)]
pub(crate) enum Call {
    Commit { bytes: u64 },
    EndWriter { code: u32 },
    Read { least: u64 },
    Advance { c: u64, e: u64 },
    EndReader { code: u32 },
    CancelRead,
    CancelFlush,
}

/// What a call was told.
#[derive(Clone, Copy, PartialEq, Eq)]
pub(crate) enum Told {
    Flushed(FlushReply, Wake),
    Gave(ReadReply, Wake),
    Woke(Wake),
}

/// A call, and what it is told.
pub(crate) type Row = (Call, Told);

pub(crate) fn commits(bytes: u64, reply: FlushReply, wake: Wake) -> Row {
    (Call::Commit { bytes }, Told::Flushed(reply, wake))
}

/// A read for at least so many bytes.
pub(crate) fn reads(least: u64, reply: ReadReply, wake: Wake) -> Row {
    (Call::Read { least }, Told::Gave(reply, wake))
}

pub(crate) fn advances(c: u64, e: u64, wake: Wake) -> Row {
    (Call::Advance { c, e }, Told::Woke(wake))
}

/// Whether each call in turn may be made, and is told so.
pub(crate) fn are_told(player: &mut Player, rows: &[Row]) -> bool {
    for (call, told) in rows.iter().copied() {
        if player.make(call) != Some(told) {
            return false;
        }
    }
    true
}

/// A control, with what has to be known before a call: whether an end has completed, and what is lent.
#[derive(Drop)]
pub(crate) struct Player {
    control: Control,
    is_ended: bool,
    is_gone: bool,
    lent: Option<u64>,
}

impl Model for Player {
    ghost use Rattle.std.specs.Prelude.{◌≡◌, is_some};
    ghost use Rattle.pipe_core.specs.declared.marks.Marks.{Marks};

    ghost Value = { Marks };

    ghost view = { λ p. p.control };

    ghost invariant = { λ p. (p.is_ended ≡ is_some p.control.ended) × (p.is_gone ≡ is_some p.control.gone) × (p.lent ≡ p.control.lent) };
}

impl Player {
    pub(crate) fn new(pause: u64, resume: u64) -> Player
        requires { AreThresholds pause resume }
    {
        Player {
            control: Control::new(pause, resume),
            is_ended: false,
            is_gone: false,
            lent: None,
        }
    }

    /// Makes a call, unless it may not be made.
    pub(crate) fn make(&mut self, call: Call) -> Option<Told> {
        match call {
            Call::Commit { bytes } => self.commit(bytes),
            Call::EndWriter { code } => self.end_writer(code),
            Call::Read { least } => self.read(least),
            Call::Advance { c, e } => self.advance(c, e),
            Call::EndReader { code } => self.end_reader(code),
            Call::CancelRead => Some(Told::Woke(self.control.cancel_read())),
            Call::CancelFlush => Some(Told::Woke(self.control.cancel_flush())),
        }
    }

    fn commit(&mut self, bytes: u64) -> Option<Told> {
        if self.is_ended {
            return None;
        }
        match commit(&mut self.control, bytes) {
            Ok((reply, wake)) => Some(Told::Flushed(reply, wake)),
            Err(_) => None,
        }
    }

    fn end_writer(&mut self, code: u32) -> Option<Told> {
        if self.is_ended {
            return None;
        }
        let wake = self.control.end_writer(code);
        self.is_ended = true;
        Some(Told::Woke(wake))
    }

    fn read(&mut self, least: u64) -> Option<Told> {
        if self.is_gone || self.lent.is_some() || least > 100 {
            return None;
        }
        let (reply, wake) = self.control.read_at_least(least);
        self.lent = len_of(reply);
        Some(Told::Gave(reply, wake))
    }

    fn advance(&mut self, c: u64, e: u64) -> Option<Told> {
        let len = self.lent?;
        if c > e || e > len {
            return None;
        }
        let wake = self.control.advance(c, e);
        self.lent = None;
        Some(Told::Woke(wake))
    }

    fn end_reader(&mut self, code: u32) -> Option<Told> {
        if self.is_gone {
            return None;
        }
        let wake = self.control.end_reader(code);
        self.is_gone = true;
        self.lent = None;
        Some(Told::Woke(wake))
    }
}

// How many bytes a read of this reply lends.
fn len_of(reply: ReadReply) -> Option<u64>
    ensures { result ≡ len_of reply }
{
    match reply {
        ReadReply::Ready { len, .. } => Some(len),
        ReadReply::Pending { .. } => None,
    }
}
