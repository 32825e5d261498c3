//! Sets of bytes.

ghost use Rattle.std.specs.Prelude.{◌≡◌, ◌↔◌, ℕ, Contains, IfSome, IsTrue, MatchOption};
ghost use Rattle.byte_kernels.specs.ByteSet.{has, in_form};

use crate::byte_test::{ByteTest, Either, Just};
use crate::search::first_without;
use crate::table::Table;

/// A set of bytes.
#[derive(Clone, Copy, Debug)]
pub struct ByteSet {
    pub(crate) form: Form,
}

/// How a set is kept: up to four bytes by themselves, which is faster to search, and others in a table.
#[derive(Clone, Copy, Debug)]
pub(crate) enum Form {
    One(Just),
    Two(Two),
    Four(Four),
    Many(Table),
}

/// The test of being one of two bytes.
pub(crate) type Two = Either<Just, Just>;

/// The test of being one of four bytes, or of three, the last of which stands there twice.
pub(crate) type Four = Either<Two, Two>;

impl ByteSet {
    ghost use Rattle.byte_kernels.specs.ByteSet.{contains};

    /// The set of the bytes that `bytes` has, in any order and each any number of times.
    pub fn of(bytes: &[u8]) -> ByteSet
        ensures { (byte : ℕ) → IsTrue (contains result byte) ↔ Contains bytes.now byte }
    {
        let form = match few_of(bytes) {
            Some(form) => form,
            None => Form::Many(table_of(bytes)),
        };
        ByteSet { form }
    }

    /// Whether `byte` is in the set.
    #[inline]
    pub fn contains(&self, byte: u8) -> bool
        ensures { result ≡ contains self.now byte }
    {
        match &self.form {
            Form::One(test) => test.byte(byte),
            Form::Two(test) => test.byte(byte),
            Form::Four(test) => test.byte(byte),
            Form::Many(table) => table.byte(byte),
        }
    }
}

// The set of these bytes, where there are one to four different ones.
fn few_of(bytes: &[u8]) -> Option<Form>
    ensures { IfSome result (λ form. (byte : ℕ) → IsTrue (in_form form byte) ↔ Contains bytes.now byte) }
{
    let one = Just(*bytes.first()?);
    let Some(second) = first_other(bytes, &one) else {
        return Some(Form::One(one));
    };
    let two = Either(one, Just(second));
    let Some(third) = first_other(bytes, &two) else {
        return Some(Form::Two(two));
    };
    let three = Either(two, Either(Just(third), Just(third)));
    let Some(fourth) = first_other(bytes, &three) else {
        return Some(Form::Four(three));
    };
    let four = Either(two, Either(Just(third), Just(fourth)));
    match first_other(bytes, &four) {
        Some(_) => None,
        None => Some(Form::Four(four)),
    }
}

// The first of these bytes that doesn't meet a test.
fn first_other<T: ByteTest>(bytes: &[u8], test: &T) -> Option<u8>
    ensures { MatchOption result ((byte : ℕ) → Contains bytes.now byte → IsTrue (T.meets test.now byte)) (λ byte. Contains bytes.now byte) }
{
    match first_without(bytes, test) {
        Some(place) => Some(bytes[place]),
        None => None,
    }
}

fn table_of(bytes: &[u8]) -> Table
    ensures { (byte : ℕ) → IsTrue (has result byte) ↔ Contains bytes.now byte }
{
    let mut table = Table::EMPTY;
    for byte in bytes {
        table = table.with(*byte);
    }
    table
}
