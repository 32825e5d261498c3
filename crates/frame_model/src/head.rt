//! What a head tells.

ghost use Rattle.std.specs.Prelude.{true, false, ◌≡◌, ◌≤◌, ◌<◌, ◌^◌, ◌⊎◌, ℕ, List, length, take};
ghost use Rattle.std.specs.Int.{w16, w32};
ghost use Rattle.frame_model.specs.Heads.{IsSmallHead, behind_group as group_after, group_head, groups as groups_written, number_head, told_by};

use crate::framing::Framing;

/// What the front of an input tells of its first frame's length, where a head stands before each payload.
#[derive(Clone, Copy, Debug, PartialEq, Eq)]
pub enum Head {
    /// Less than a head.
    Short,
    /// So many bytes begin no head.
    Broken { bytes: u64 },
    /// A head of `bytes` bytes, and the payload behind it has `len`.
    Told { bytes: u64, len: u64 },
}

/// How many bytes a head has at most. What stands behind them has no part in what is told.
pub const LONGEST_HEAD: usize = 4;

/// What the front of these bytes tells, where the framing has heads. Each framing's heads are read here and nowhere else.
#[inline(always)]
pub fn head_at_front(framing: Framing, bytes: &[u8]) -> Option<Head>
    ensures { result ≡ told_by framing bytes.now }
{
    match framing {
        Framing::Len4 => Some(four_bytes(bytes)),
        Framing::Len2 => Some(two_bytes(bytes)),
        Framing::VLen => Some(grouped(bytes)),
        Framing::Line => None,
    }
}

#[inline(always)]
fn four_bytes(bytes: &[u8]) -> Head
    ensures { result ≡ number_head w32 bytes.now }
{
    match bytes.split_first_chunk::<4>() {
        None => Head::Short,
        Some((head, _)) => Head::Told {
            bytes: 4,
            len: u64::from(u32::from_be_bytes(*head)),
        },
    }
}

#[inline(always)]
fn two_bytes(bytes: &[u8]) -> Head
    ensures { result ≡ number_head w16 bytes.now }
{
    match bytes.split_first_chunk::<2>() {
        None => Head::Short,
        Some((head, _)) => Head::Told {
            bytes: 2,
            len: u64::from(u16::from_be_bytes(*head)),
        },
    }
}

/// A length in at most four groups of 7 bits, least significant first.
#[inline(always)]
fn grouped(bytes: &[u8]) -> Head
    ensures { result ≡ group_head 4 true bytes.now }
{
    match bytes.split_first() {
        None => Head::Short,
        Some((first, _)) if *first < 128 => Head::Told {
            bytes: 1,
            len: u64::from(*first),
        },
        Some((first, rest)) => behind_group(u64::from(*first % 128), groups(rest, 3)),
    }
}

/// The groups of a length behind its first one, at most `most`. The last must not be 0, since a shorter head tells the same.
fn groups(bytes: &[u8], most: usize) -> Head
    requires { most ≤ 3 }
    ensures { result ≡ group_head most false bytes.now }
{
    if most == 0 {
        return Head::Broken { bytes: 0 };
    }
    match bytes.split_first() {
        None => Head::Short,
        Some((0, _)) => Head::Broken { bytes: 1 },
        Some((group, _)) if *group < 128 => Head::Told {
            bytes: 1,
            len: u64::from(*group),
        },
        Some((group, rest)) => behind_group(u64::from(*group % 128), groups(rest, most - 1)),
    }
}

/// What a group and the groups behind it tell.
#[inline(always)]
fn behind_group(low: u64, head: Head) -> Head
    requires low { low < 128 }
    requires small { IsSmallHead head }
    ensures { result ≡ group_after low head }
{
    match head {
        Head::Short => Head::Short,
        Head::Broken { bytes } => Head::Broken { bytes: bytes + 1 },
        Head::Told { bytes, len } => Head::Told {
            bytes: bytes + 1,
            len: low + 128 * len,
        },
    }
}

/// A length in groups of 7 bits, least significant first: the first `count` of four bytes.
#[derive(Clone, Copy, Debug)]
pub struct GroupedLength {
    pub bytes: [u8; 4],
    pub count: usize,
}

/// Writes a length in as few groups as it needs, and at least one.
#[inline(always)]
pub fn groups_of(len: u32) -> GroupedLength
    requires { len < 2 ^ 28 }
    ensures groups { take result.count result.bytes ≡ groups_written 4 len }
    ensures few { result.count ≤ 4 }
    ensures size { result.count ≡ length (groups_written 4 len) }
{
    if len < 128 {
        return GroupedLength {
            bytes: [len as u8, 0, 0, 0],
            count: 1,
        };
    }
    let low = 128 + (len % 128) as u8;
    let rest = len / 128;
    if rest < 128 {
        return GroupedLength {
            bytes: [low, rest as u8, 0, 0],
            count: 2,
        };
    }
    let second = 128 + (rest % 128) as u8;
    let rest = rest / 128;
    if rest < 128 {
        return GroupedLength {
            bytes: [low, second, rest as u8, 0],
            count: 3,
        };
    }
    let third = 128 + (rest % 128) as u8;
    GroupedLength {
        bytes: [low, second, third, (rest / 128) as u8],
        count: 4,
    }
}

/// The first bytes tell what all do. The function does nothing.
pub fn heads_are_short()
    ensures { (framing : Framing) (x : List ℕ) (n : ℕ) → (4 ≤ n) ⊎ (length x ≤ n) → told_by framing (take n x) ≡ told_by framing x }
{}
