//! The payloads.

ghost use Rattle.std.specs.Prelude.{◌≡◌, ◌+◌, ◌≤◌};
ghost use Rattle.gen_core.specs.Generator.{payload, payload_len, run};

/// The printable characters from the space on, twice: each run of at most 95 of them is a piece of this.
const PRINTABLE: [u8; 190] =
    *b" !\"#$%&'()*+,-./0123456789:;<=>?@ABCDEFGHIJKLMNOPQRSTUVWXYZ[\\]^_`abcdefghijklmnopqrstuvwxyz{|}~ !\"#$%&'()*+,-./0123456789:;<=>?@ABCDEFGHIJKLMNOPQRSTUVWXYZ[\\]^_`abcdefghijklmnopqrstuvwxyz{|}~";

/// How many bytes the payload of a number has: 0 to 95.
pub(crate) fn len_of(seed: u32, number: u32) -> usize
    ensures len { result ≡ payload_len seed number }
    ensures few { result ≤ 95 }
{
    ((u64::from(seed) + 13 * u64::from(number)) % 96) as usize
}

/// The payload of a number.
pub(crate) fn payload_of(seed: u32, number: u32) -> &'static [u8]
    ensures { result.now ≡ payload seed number }
{
    printable(
        (u64::from(seed) + u64::from(number)) % 95,
        len_of(seed, number),
    )
}

/// A run of printable characters.
fn printable(start: u64, len: usize) -> &'static [u8]
    requires start { start ≤ 94 }
    requires len { len ≤ 95 }
    ensures { result.now ≡ run start len }
{
    let start = start as usize;
    &PRINTABLE[start..start + len]
}
