//! Reading up to a byte, and over bytes.

ghost use Rattle.std.specs.Prelude.{◌≡◌, ◌==◌, not, is_some, option_map, position, take};
ghost use Rattle.std.specs.List.{prefix_len};
ghost use Rattle.byte_kernels.specs.ByteSet.{contains};
ghost use Rattle.span_seq.specs.Sequence.{bytes, part};
ghost use Rattle.seq_reader.specs.Reading.{moved, moved_to, next_part, rest_of};

use crate::reader::SeqReader;
use byte_kernels::{ByteSet, index_of_any, index_of_any_except};
use span_seq::{Byte, Search, Sequence, Spans};

// The search for a byte of a set.
#[derive(Clone, Copy)]
struct AnyOf<'a>(&'a ByteSet);

impl Search for AnyOf<'_> {
    ghost meets = { λ search. contains search.0.now };

    #[inline]
    fn index_in(&self, bytes: &[u8]) -> Option<usize> {
        index_of_any(bytes, self.0)
    }
}

// The search for a byte that isn't in a set.
#[derive(Clone, Copy)]
struct NoneOf<'a>(&'a ByteSet);

impl Search for NoneOf<'_> {
    ghost meets = { λ search byte. not (contains search.0.now byte) };

    #[inline]
    fn index_in(&self, bytes: &[u8]) -> Option<usize> {
        index_of_any_except(bytes, self.0)
    }
}

impl<'a, C: Spans> SeqReader<'a, C> {
    /// What stands before the next such byte, to which it goes, or past it where `past`, as `TryReadTo`.
    pub fn read_to(&mut self, byte: u8, past: bool) -> Option<Sequence<'a, C>>
        ensures before { option_map part result ≡ option_map (next_part self.old) (position (λ other. other == byte) (rest_of self.old)) }
        ensures bytes { option_map bytes result ≡ option_map (λ index. take index (rest_of self.old)) (position (λ other. other == byte) (rest_of self.old)) }
        ensures place { self.new ≡ moved_to self.old (position (λ other. other == byte) (rest_of self.old)) past }
    {
        self.read_up_to(&Byte(byte), past)
    }

    /// What stands before the next byte of the set, to which it goes, or past it where `past`, as `TryReadToAny`.
    pub fn read_to_any(&mut self, set: &ByteSet, past: bool) -> Option<Sequence<'a, C>>
        ensures before { option_map part result ≡ option_map (next_part self.old) (position (contains set.now) (rest_of self.old)) }
        ensures bytes { option_map bytes result ≡ option_map (λ index. take index (rest_of self.old)) (position (contains set.now) (rest_of self.old)) }
        ensures place { self.new ≡ moved_to self.old (position (contains set.now) (rest_of self.old)) past }
    {
        self.read_up_to(&AnyOf(set), past)
    }

    /// Goes to the next such byte, or past it where `past`, as `TryAdvanceTo`.
    pub fn advance_to(&mut self, byte: u8, past: bool) -> bool
        ensures found { result ≡ is_some (position (λ other. other == byte) (rest_of self.old)) }
        ensures place { self.new ≡ moved_to self.old (position (λ other. other == byte) (rest_of self.old)) past }
    {
        self.go_to(&Byte(byte), past).is_some()
    }

    /// Goes to the next byte of the set, or past it where `past`, as `TryAdvanceToAny`.
    pub fn advance_to_any(&mut self, set: &ByteSet, past: bool) -> bool
        ensures found { result ≡ is_some (position (contains set.now) (rest_of self.old)) }
        ensures place { self.new ≡ moved_to self.old (position (contains set.now) (rest_of self.old)) past }
    {
        self.go_to(&AnyOf(set), past).is_some()
    }

    /// Passes all such bytes that come next, and answers how many there were, as `AdvancePast`.
    pub fn advance_past(&mut self, byte: u8) -> u64
        ensures count { result ≡ prefix_len (λ other. other == byte) (rest_of self.old) }
        ensures place { self.new ≡ moved self.old result }
    {
        self.advance_past_any(&ByteSet::of(&[byte]))
    }

    /// Passes all bytes of the set that come next, and answers how many there were, as `AdvancePastAny`.
    pub fn advance_past_any(&mut self, set: &ByteSet) -> u64
        ensures count { result ≡ prefix_len (contains set.now) (rest_of self.old) }
        ensures place { self.new ≡ moved self.old result }
    {
        let rest = self.unread();
        let count = match rest.index_of(&NoneOf(set)) {
            Some(index) => index,
            None => rest.len(),
        };
        self.advance(count);
        count
    }

    // Goes to the first byte that a search finds, or past it. Answers the byte's index in what was still to be read.
    #[inline]
    fn go_to<S: Search>(&mut self, search: &S, past: bool) -> Option<u64>
        ensures index { result ≡ position (S.meets search.now) (rest_of self.old) }
        ensures place { self.new ≡ moved_to self.old result past }
    {
        let index = self.unread().index_of(search)?;
        self.advance(index + u64::from(past));
        Some(index)
    }

    // What stands before the first byte that a search finds.
    #[inline]
    fn read_up_to<S: Search>(&mut self, search: &S, past: bool) -> Option<Sequence<'a, C>>
        ensures before { option_map part result ≡ option_map (next_part self.old) (position (S.meets search.now) (rest_of self.old)) }
        ensures bytes { option_map bytes result ≡ option_map (λ index. take index (rest_of self.old)) (position (S.meets search.now) (rest_of self.old)) }
        ensures place { self.new ≡ moved_to self.old (position (S.meets search.now) (rest_of self.old)) past }
    {
        let rest = self.unread();
        let index = self.go_to(search, past)?;
        Some(rest.slice(rest.start(), rest.position(index)))
    }
}
