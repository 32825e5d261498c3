//! Laws of a pipe's segments. The functions do nothing: what they ensure is the law.

ghost use Rattle.std.specs.Prelude.{◌≡◌, ◌≤◌, ◌+◌, ◌-◌, ◌∷◌, ◌++◌, ℕ, Bool, List, [], length, drop, map, nat_lt, IsNone};
ghost use Rattle.std.specs.List.{filter};
ghost use Rattle.pipe_core.specs.History.{Call, Run, Commit, Read, Advance, reader_end, bytes_of};
ghost use Rattle.pipe_core.specs.Lends.{drop_bytes, joined};
ghost use Rattle.seg_block.specs.Numbered.{AreNumbered};
ghost use Rattle.seg_block.specs.declared.block.Block.{Block};
ghost use Rattle.pipe_state.specs.Fetched.{Fetched};
ghost use Rattle.pipe_state.specs.Released.{BlockName, names_of};
ghost use Rattle.pipe_state.specs.Sides.{Unfinished};
ghost use Rattle.pipe_state.specs.Segments.{AreInOrder, AreSized, sent_in};
ghost use Rattle.pipe_state.specs.Lying.{Lies, AreFull, HaveOwnIds, extended, runs_of};

use seg_block::ids_differ;

/// What lies in the segments is what the history lends, whatever call comes next.
pub fn runs_lie_with_the_segments()
    ensures start { Lies [] 0 [] }
    ensures commit { (h : List Call) (runs live : List Run) (skip : ℕ) → IsNone (reader_end h) → AreFull runs → Lies h skip live → Lies (Commit runs ∷ h) skip (extended live runs) }
    ensures read { (h : List Call) (live : List Run) (skip n : ℕ) → Lies h skip live → Lies (Read n ∷ h) skip live }
    ensures advance { (h : List Call) (live : List Run) (skip c e : ℕ) → skip + c ≤ length (bytes_of live) → Lies h skip live → Lies (Advance c e ∷ h) (skip + c) live }
    ensures home { (h : List Call) (first : Run) (live : List Run) (skip : ℕ) → length first.bytes ≤ skip → Lies h skip (first ∷ live) → Lies h (skip - length first.bytes) live }
{}

/// A draft that is committed in the segment that the writer fills joins the runs of all segments at their end.
pub fn a_commit_joins_the_runs()
    ensures { (home : List BlockName) (live : List Fetched) (unfinished rest : List Unfinished) (blocks : List BlockName) (u : Unfinished) (bytes : List ℕ) (finished : Bool) →
        unfinished ≡ u ∷ rest → HaveOwnIds blocks → AreInOrder home live unfinished blocks →
        runs_of (sent_in u.sent (record { label = u.label; bytes = u.bytes ++ bytes; finished = finished }) live) ≡ joined (runs_of live ++ record { segment = u.label.id; bytes = bytes } ∷ []) }
{}

/// What lies behind what was consumed of the first segment, segment by segment, are its runs, where it has bytes.
pub fn spans_are_the_runs()
    ensures { (first : Run) (live : List Run) (skip : ℕ) → skip ≤ length first.bytes → AreFull (first ∷ live) →
        filter (λ bytes. nat_lt 0 (length bytes)) (drop skip first.bytes ∷ map (λ r. r.bytes) live) ≡ map (λ r. r.bytes) (drop_bytes skip (first ∷ live)) }
{}

/// Blocks with numbers in order, of one size, are such that a pipe may be made of.
pub fn numbered_blocks_fit()
    ensures own { (first size : ℕ) (blocks : List Block) → AreNumbered first size blocks → HaveOwnIds (names_of blocks) }
    ensures sized { (first size : ℕ) (blocks : List Block) → AreNumbered first size blocks → AreSized size (names_of blocks) }
{
    ids_differ();
}
