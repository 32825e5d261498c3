//! How segments go home.

ghost use Rattle.std.specs.Prelude.{◌≡◌, ◌≤◌, ◌<◌, ◌+◌, true, false, [], ◌∷◌, ◌++◌, length, take, drop, IsSome, IfSome, IfNone};
ghost use Rattle.pipe_state.specs.Fetched.{all_fetched, label_of};
ghost use Rattle.pipe_state.specs.Chains.{IsLink, first_len};
ghost use Rattle.pipe_state.specs.Released.{FinishedBefore, block_in, blocks_in, bytes_in, first_goes, left_after, names_of, skip_after};

use crate::arrival::Link;
use crate::chain::{Chain, count_fewer};
use crate::rings::put_behind;
use circular_buffer::HeapCircularBuffer;
use seg_block::{Block, block_of};

impl Chain {
    /// Gives up `n` more bytes. The segments that are finished, and of which all is given up, go home.
    pub fn release(&mut self, n: usize, home: &mut HeapCircularBuffer<Block>)
        requires within { self.old.skip + n ≤ length (bytes_in (all_fetched self.old.links)) }
        requires order { FinishedBefore (all_fetched self.old.links) }
        requires room { length home.old.items + length self.old.links ≤ home.old.capacity }
        ensures links { all_fetched self.new.links ≡ left_after (self.old.skip + n) (all_fetched self.old.links) }
        ensures skip { self.new.skip ≡ skip_after (self.old.skip + n) (all_fetched self.old.links) }
        ensures within { self.new.skip ≤ first_len (all_fetched self.new.links) }
        ensures capacity { self.new.capacity ≡ self.old.capacity }
        ensures home { names_of home.new.items ++ blocks_in (all_fetched self.new.links) ≡ names_of home.old.items ++ blocks_in (all_fetched self.old.links) }
        ensures home_capacity { home.new.capacity ≡ home.old.capacity }
    {
        let rest = self.send_whole(n, home);
        let _len = self.first_len();
        self.skip += rest;
    }

    // How many bytes the first segment has, none where there is none.
    fn first_len(&self) -> usize
        ensures { result ≡ first_len (all_fetched self.now.links) }
    {
        match self.links.front() {
            Some(link) => link.front.seen().len(),
            None => 0,
        }
    }

    // Those that `n` more bytes give up whole go home. How many of these bytes lie in the first that is left.
    fn send_whole(&mut self, n: usize, home: &mut HeapCircularBuffer<Block>) -> usize
        requires within { self.old.skip + n ≤ length (bytes_in (all_fetched self.old.links)) }
        requires order { FinishedBefore (all_fetched self.old.links) }
        requires room { length home.old.items + length self.old.links ≤ home.old.capacity }
        ensures links { all_fetched self.new.links ≡ left_after (self.old.skip + n) (all_fetched self.old.links) }
        ensures skip { self.new.skip + result ≡ skip_after (self.old.skip + n) (all_fetched self.old.links) }
        ensures first { self.new.skip + result ≤ first_len (all_fetched self.new.links) }
        ensures capacity { self.new.capacity ≡ self.old.capacity }
        ensures home { names_of home.new.items ++ blocks_in (all_fetched self.new.links) ≡ names_of home.old.items ++ blocks_in (all_fetched self.old.links) }
        ensures home_capacity { home.new.capacity ≡ home.old.capacity }
    {
        let mut rest = n;
        for _ in 0..self.links.len() {
            match self.first_whole(rest) {
                Some(len) => {
                    self.send_first(home);
                    rest -= len;
                }
                None => return rest,
            }
        }
        rest
    }

    // How many bytes of the first are left, where it is finished and they are no more than `n`.
    fn first_whole(&self, n: usize) -> Option<usize>
        ensures some { IfSome result (λ len. (first_goes (self.now.skip + n) (all_fetched self.now.links) ≡ true) × (self.now.skip + len ≡ first_len (all_fetched self.now.links)) × (len ≤ n)) }
        ensures none { IfNone result (first_goes (self.now.skip + n) (all_fetched self.now.links) ≡ false) }
    {
        match self.links.front() {
            Some(link) => {
                let len = link.front.seen().len() - self.skip;
                if link.end.is_none() {
                    return None;
                }
                if len <= n { Some(len) } else { None }
            }
            None => None,
        }
    }

    // The first segment, which is finished, goes home.
    fn send_first(&mut self, home: &mut HeapCircularBuffer<Block>)
        requires finished { first_goes (first_len (all_fetched self.old.links)) (all_fetched self.old.links) ≡ true }
        requires room { length home.old.items < home.old.capacity }
        ensures links { self.new.links ≡ drop 1 self.old.links }
        ensures skip { self.new.skip ≡ 0 }
        ensures capacity { self.new.capacity ≡ self.old.capacity }
        ensures home { names_of home.new.items ≡ names_of home.old.items ++ take 1 (blocks_in (all_fetched self.old.links)) }
        ensures home_capacity { home.new.capacity ≡ home.old.capacity }
    {
        self.skip = 0;
        match self.links.pop_front() {
            Some(link) => {
                self.held = count_fewer(self.held, link.front.seen().len());
                put_home(link, home);
            }
            None => unreachable!(),
        }
    }
}

// The block of a finished segment goes home.
fn put_home(link: Link, home: &mut HeapCircularBuffer<Block>)
    requires link { IsLink link }
    requires finished { IsSome link.end }
    requires room { length home.old.items < home.old.capacity }
    ensures home { names_of home.new.items ≡ names_of home.old.items ++ block_in (label_of link.front) ∷ [] }
    ensures capacity { home.new.capacity ≡ home.old.capacity }
{
    let Link { front, end } = link;
    match end {
        Some(end) => put_behind(home, block_of(front, end)),
        None => unreachable!(),
    }
}
