//! Marks at the numbers of a list.
ghost use Rattle.std.specs.Prelude.{◌≡◌, ◌<◌, ◌≤◌, ℕ, [], false, true, length, replicate};
ghost use Rattle.std.specs.Prelude.{slice_set, slice_index_or, OnOk};

use std::alloc::{AllocError, Global};
use std::marker::Model;

/// A mark or none at each number below a count, 64 of them in a word. Contracts see it as the list of these truth
/// values.
#[derive(Debug, Drop)]
pub struct Marks {
    words: Vec<u64>,
    count: usize,
}

impl Model for Marks {
    ghost use Rattle.std.specs.Prelude.{List, Bool};
    ghost use Rattle.part_grid.specs.inner.Marks.{marks_of, IsMarks};

    ghost Value = { List Bool };

    ghost view = { λ m. marks_of m.words.items m.count };

    ghost invariant = { λ m. IsMarks m.words.items m.count };
}

impl Marks {
    /// No numbers.
    pub fn new(alloc: Global) -> Self
        ensures { result ≡ [] }
    {
        Marks {
            words: Vec::new(alloc),
            count: 0,
        }
    }

    /// As many numbers as `count` says, without a mark.
    pub fn reset(&mut self, count: usize) -> Result<(), AllocError>
        ensures { OnOk result (self.new ≡ replicate count false) }
    {
        self.count = 0;
        self.words.clear();
        self.words.resize_with(
            count / 64 + 1,
            || -> u64
                ensures { result ≡ 0 }
            { 0 },
        )?;
        self.count = count;
        Ok(())
    }

    /// Marks a number, if it is one of these.
    pub fn mark(&mut self, number: usize)
        ensures { self.new ≡ slice_set self.old number true }
    {
        if number < self.count {
            let place = number / 64;
            self.words[place] |= 1 << (number % 64);
        }
    }

    /// The first marked number from a number on, or the count where there is none.
    pub fn next_from(&self, number: usize) -> usize
        requires { number ≤ length self.now }
        ensures from { number ≤ result }
        ensures within { result ≤ length self.now }
        ensures unmarked { (k : ℕ) → number ≤ k → k < result → slice_index_or self.now k false ≡ false }
        ensures marked { result < length self.now → slice_index_or self.now result false ≡ true }
    {
        if number >= self.count {
            return self.count;
        }
        let first = number / 64;
        let word = self.words[first];
        let left = word >> (number % 64);
        if left != 0 {
            return self.count.min(number + left.trailing_zeros() as usize);
        }
        for place in first + 1..(self.count - 1) / 64 + 1 {
            let word = self.words[place];
            if word != 0 {
                return self.count.min(place * 64 + word.trailing_zeros() as usize);
            }
        }
        self.count
    }
}
