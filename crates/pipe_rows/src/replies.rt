//! The replies and wakes that tests of several pipes look for.

use pipe_core::{FlushReply, ReadReply, Wake};

pub(crate) const NOBODY: Wake = Wake {
    reader: false,
    writer: false,
};

pub(crate) const THE_READER: Wake = Wake {
    reader: true,
    writer: false,
};

pub(crate) const THE_WRITER: Wake = Wake {
    reader: false,
    writer: true,
};

pub(crate) const FLUSHED: FlushReply = FlushReply::Ready {
    canceled: false,
    gone: None,
};

// The reply of a read that lends so many bytes.
pub(crate) fn reply(ended: Option<u32>, len: u64) -> ReadReply {
    ReadReply::Ready {
        canceled: false,
        ended,
        len,
    }
}

// The reply of a read that waits.
pub(crate) fn waits(examined: u64, held: u64) -> ReadReply {
    ReadReply::Pending { examined, held }
}

// The reply of a flush that waits.
pub(crate) fn is_held(unexamined: u64) -> FlushReply {
    FlushReply::Pending { unexamined }
}
