//! The searches that are timed, and the bytes that they search.

use byte_kernels::{
    ByteSet, common_front, index_in_range, index_not_in_range, index_of_any, index_of_any_except,
    last_index_of_any, plain,
};
use std::alloc::{AllocError, Global};

/// A search.
#[derive(Clone, Copy)]
pub(crate) enum Kernel {
    Any,
    Last,
    Except,
    InRange,
    NotInRange,
    Front,
}

/// A search that is timed, for a set, or for a range from `a` up to `y`, or from `z` up to the last byte.
pub(crate) struct Row {
    pub(crate) name: &'static str,
    pub(crate) kernel: Kernel,
    pub(crate) set: &'static [u8],
}

/// All searches that are timed.
pub(crate) const ROWS: [Row; 10] = [
    Row {
        name: "any of 1",
        kernel: Kernel::Any,
        set: b"z",
    },
    Row {
        name: "any of 2",
        kernel: Kernel::Any,
        set: b"yz",
    },
    Row {
        name: "any of 4",
        kernel: Kernel::Any,
        set: b"wxyz",
    },
    Row {
        name: "any of 25",
        kernel: Kernel::Any,
        set: b"bcdefghijklmnopqrstuvwxyz",
    },
    Row {
        name: "last of 1",
        kernel: Kernel::Last,
        set: b"z",
    },
    Row {
        name: "last of 4",
        kernel: Kernel::Last,
        set: b"wxyz",
    },
    Row {
        name: "except 4",
        kernel: Kernel::Except,
        set: b"abcd",
    },
    Row {
        name: "in range",
        kernel: Kernel::InRange,
        set: b"",
    },
    Row {
        name: "not in range",
        kernel: Kernel::NotInRange,
        set: b"",
    },
    Row {
        name: "common front",
        kernel: Kernel::Front,
        set: b"",
    },
];

impl Row {
    /// Where the search on lanes ends.
    #[inline]
    pub(crate) fn on_lanes(&self, hay: &[u8], other: &[u8], set: &ByteSet) -> usize {
        match self.kernel {
            Kernel::Any => index_of_any(hay, set).unwrap_or(0),
            Kernel::Last => last_index_of_any(hay, set).unwrap_or(0),
            Kernel::Except => index_of_any_except(hay, set).unwrap_or(0),
            Kernel::InRange => index_in_range(hay, b'z', 255).unwrap_or(0),
            Kernel::NotInRange => index_not_in_range(hay, b'a', b'y').unwrap_or(0),
            Kernel::Front => common_front(hay, other),
        }
    }

    /// Where the plain search ends.
    #[inline]
    pub(crate) fn plainly(&self, hay: &[u8], other: &[u8], set: &ByteSet) -> usize {
        match self.kernel {
            Kernel::Any => plain::index_of_any(hay, set).unwrap_or(0),
            Kernel::Last => plain::last_index_of_any(hay, set).unwrap_or(0),
            Kernel::Except => plain::index_of_any_except(hay, set).unwrap_or(0),
            Kernel::InRange => plain::index_in_range(hay, b'z', 255).unwrap_or(0),
            Kernel::NotInRange => plain::index_not_in_range(hay, b'a', b'y').unwrap_or(0),
            Kernel::Front => plain::common_front(hay, other),
        }
    }
}

/// Two copies of bytes that a search passes but for one, and bytes that it passes wholly.
#[derive(Drop)]
pub(crate) struct Bytes {
    even: Vec<u8>,
    odd: Vec<u8>,
    other: Vec<u8>,
}

impl Bytes {
    /// So many bytes `a`, with a `z` where the search comes to last.
    pub(crate) fn of(alloc: Global, row: &Row, len: usize) -> Result<Bytes, AllocError> {
        Ok(Bytes {
            even: marked(alloc, row.kernel, len)?,
            odd: marked(alloc, row.kernel, len)?,
            other: vec![in alloc; b'a'; len]?,
        })
    }

    pub(crate) fn len(&self) -> usize {
        self.other.len()
    }

    /// One of the two copies, by turns, so that no search is the one before it.
    #[inline]
    pub(crate) fn hay(&self, turn: usize) -> &[u8] {
        if turn % 2 == 0 { &self.even } else { &self.odd }
    }

    pub(crate) fn other(&self) -> &[u8] {
        &self.other
    }
}

fn marked(alloc: Global, kernel: Kernel, len: usize) -> Result<Vec<u8>, AllocError> {
    let mut bytes = vec![in alloc; b'a'; len]?;
    let place = match kernel {
        Kernel::Last => bytes.first_mut(),
        _ => bytes.last_mut(),
    };
    if let Some(byte) = place {
        *byte = b'z';
    }
    Ok(bytes)
}
