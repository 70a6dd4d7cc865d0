ghost use Rattle.std.specs.Prelude.{◌≡◌, ◌<◌, ◌^◌, IfOk, length, slice_index};
ghost use Rattle.std.proofs.Common.{replicate, set};
ghost use Rattle.sparse_words.specs.declared.pages.TheConstants.{PAGE};

use crate::pages::{PAGE, put};
use std::alloc::{AllocError, Global};
use std::marker::Model;

/// A row of words that are 0 until they are written, seen as the list of them.
#[derive(Drop)]
pub struct SparseWords {
    count: usize,
    // which of the kept pages each page is: 0 is the page of zeros
    places: Vec<u32>,
    kept: Vec<u64>,
}

impl Model for SparseWords {
    ghost use Rattle.std.specs.Prelude.{ℕ, List};
    ghost use Rattle.sparse_words.specs.Pages.{row_of, IsRow};

    ghost Value = { List ℕ };

    ghost view = { λ s. row_of s.count s.places.items s.kept.items };

    ghost invariant = { λ s. IsRow s.count s.places s.kept };
}

impl SparseWords {
    /// A row of so many words, fewer than 2 ^ 32, which are all 0. All its memory is taken here.
    pub fn new(alloc: Global, count: usize) -> Result<SparseWords, AllocError>
        requires { count < 2 ^ 32 }
        ensures { IfOk result (λ s. s ≡ replicate count 0) }
    {
        let pages = count / PAGE + 1;
        let places = vec![in alloc; 0u32; pages]?;
        let mut kept = Vec::with_capacity(alloc, (pages + 1) * PAGE)?;
        kept.resize(PAGE, 0).unwrap();
        Ok(SparseWords {
            count,
            places,
            kept,
        })
    }

    /// The word at place `i`, which is below the number of words.
    pub fn get(&self, i: usize) -> u64
        requires { i < length self.now }
        ensures { result ≡ slice_index self.now i }
    {
        let place = self.places[i / PAGE] as usize;
        self.kept[place * PAGE + i % PAGE]
    }

    /// Writes the word at place `i`, which is below the number of words.
    pub fn set(&mut self, i: usize, word: u64)
        requires { i < length self.old }
        ensures { self.new ≡ set self.old i word }
    {
        put(&mut self.places, &mut self.kept, i, word);
    }

    /// Makes all words 0.
    pub fn clear(&mut self)
        ensures { self.new ≡ replicate (length self.old) 0 }
    {
        self.places.fill(0);
        self.kept.truncate(PAGE);
    }
}
