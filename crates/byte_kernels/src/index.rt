//! The first and the last byte of a slice that is in a set, and the first that isn't.

ghost use Rattle.std.specs.Prelude.{◌≡◌, not, position};
ghost use Rattle.byte_kernels.specs.ByteSet.{contains};
ghost use Rattle.byte_kernels.specs.Scan.{last_position};

use crate::byte_set::{ByteSet, Form};
use crate::search::{first_with, first_without, last_with};
use memchr::{memchr, memrchr};

/// The index of the first byte of `hay` that is in the set, as `IndexOfAny` of .NET's spans.
pub fn index_of_any(hay: &[u8], set: &ByteSet) -> Option<usize>
    ensures { result ≡ position (contains set.now) hay.now }
{
    match &set.form {
        Form::One(just) => memchr(just.0, hay),
        Form::Two(test) => first_with(hay, test),
        Form::Four(test) => first_with(hay, test),
        Form::Many(test) => first_with(hay, test),
    }
}

/// The index of the last byte of `hay` that is in the set, as `LastIndexOfAny` of .NET's spans.
pub fn last_index_of_any(hay: &[u8], set: &ByteSet) -> Option<usize>
    ensures { result ≡ last_position (contains set.now) hay.now }
{
    match &set.form {
        Form::One(just) => memrchr(just.0, hay),
        Form::Two(test) => last_with(hay, test),
        Form::Four(test) => last_with(hay, test),
        Form::Many(test) => last_with(hay, test),
    }
}

/// The index of the first byte of `hay` that isn't in the set, as `IndexOfAnyExcept` of .NET's spans.
pub fn index_of_any_except(hay: &[u8], set: &ByteSet) -> Option<usize>
    ensures { result ≡ position (λ byte. not (contains set.now byte)) hay.now }
{
    match &set.form {
        Form::One(test) => first_without(hay, test),
        Form::Two(test) => first_without(hay, test),
        Form::Four(test) => first_without(hay, test),
        Form::Many(test) => first_without(hay, test),
    }
}
