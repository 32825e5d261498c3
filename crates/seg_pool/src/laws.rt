//! Laws of the books. These functions do nothing: what they ensure is the law.

ghost use Rattle.std.specs.Prelude.{◌≡◌, ◌<◌, ℕ, List, [], ◌∷◌, ◌++◌};
ghost use mathlib.Core.Option.{some};
ghost use lib.ListN.{get_elem?};
ghost use Rattle.seg_block.specs.declared.block.Block.{Block};
ghost use Rattle.seg_block.specs.Words.{id_of};
ghost use Rattle.seg_block.specs.Numbered.{times};
ghost use Rattle.seg_pool.specs.declared.books.PassBooks.{PassBooks};
ghost use Rattle.seg_pool.specs.Books.{AtHome, IsBalanced, IsInOnePlace, KnowsAll, whole};
ghost use Rattle.seg_pool.specs.Steps.{merged, split_new, split_old};
ghost use Rattle.seg_pool.specs.Words.{Adds, Removes};

/// Each id that was made is at home, out with one pass or freed, and in no two of these places.
pub fn each_id_is_in_one_place()
    ensures { (home : List Block) (passes : List PassBooks) → IsBalanced home passes → (id : ℕ) → IsInOnePlace id home passes }
{}

/// What is at home is out with no pass, and neither is a block that isn't made yet.
pub fn rented_is_not_out()
    ensures home { (v : PassBooks) (block : Block) (rest : List Block) (moment : AtHome v (block ∷ rest)) (k : ℕ) (w : PassBooks) →
        get_elem? moment.passes k ≡ some w → times (id_of block) w.out ≡ 0 }
    ensures new { (v : PassBooks) (home : List Block) (moment : AtHome v home) (k : ℕ) (w : PassBooks) → v.next < v.limit →
        get_elem? moment.passes k ≡ some w → times v.next w.out ≡ 0 }
{}

/// The pass with all parts has the books of the whole pool.
pub fn all_is_known()
    ensures { (v : PassBooks) (home : List Block) → AtHome v home → v.parts ≡ whole → KnowsAll v home }
{}

/// Where all that was rented was given back, the ids out are those before.
pub fn nothing_is_out()
    ensures { (first between last : PassBooks) (ids : List ℕ) → Adds first ids between → Removes between ids last → Adds first [] last }
{}

/// Where a pass was split and merged again, what is out beside what was out before is what both have rented.
pub fn split_and_merged()
    ensures { (v old new old_later new_later last : PassBooks) (ids more : List ℕ) → old ≡ split_old v → new ≡ split_new v →
        Adds old ids old_later → Adds new more new_later → last ≡ merged old_later new_later → Adds v (ids ++ more) last }
{}
