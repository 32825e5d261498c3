//! Where spans come from.

ghost use Rattle.std.specs.Prelude.{◌≡◌, ◌<◌, ℕ, List, [], ◌∷◌, length, map, slice_index_or};

/// Spans of bytes, in order. A span may be empty.
pub trait Spans {
    /// The bytes of each span.
    ghost spans: { Self → List (List ℕ) };

    /// How many spans there are.
    fn count(&self) -> usize
        ensures { result ≡ length (spans self.now) };

    /// The span at `index`, counted from 0.
    fn span(&self, index: usize) -> &[u8]
        requires { index < length (spans self.now) }
        ensures { result.now ≡ slice_index_or (spans self.now) index [] };
}

/// A single span.
#[derive(Clone, Copy, Debug)]
pub struct One<'a>(pub &'a [u8]);

impl Spans for One<'_> {
    ghost spans = { λ one. one.0.now ∷ [] };

    #[inline]
    fn count(&self) -> usize {
        1
    }

    #[inline]
    fn span(&self, _index: usize) -> &[u8] {
        self.0
    }
}

/// The spans that these vectors hold.
#[derive(Clone, Copy, Debug)]
pub struct Many<'a>(pub &'a [Vec<u8>]);

impl Spans for Many<'_> {
    ghost spans = { λ many. map (λ span. span.items) many.0.now };

    fn count(&self) -> usize {
        self.0.len()
    }

    fn span(&self, index: usize) -> &[u8] {
        self.0[index].as_slice()
    }
}
