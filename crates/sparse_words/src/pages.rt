// A row in pages. Those in which a word was written are kept one behind another, behind one page of zeros that stands for all others.
ghost use Rattle.std.specs.Prelude.{◌≡◌, ◌≢◌, ◌≤◌, ◌<◌, ◌+◌, ◌*◌, ◌/◌, ◌^◌, ◌==◌, ℕ, if◌then◌else◌, length, slice_index, vec_capacity};
ghost use Rattle.sparse_words.specs.declared.pages.TheConstants.{PAGE};
ghost use Rattle.sparse_words.specs.Pages.{ArePages, word_at};

/// The words of a page.
pub(crate) const PAGE: usize = 256;

/// Keeps a page of zeros of its own for the page, where none is kept yet. There is room for it.
pub(crate) fn keep_page(places: &mut Vec<u32>, kept: &mut Vec<u64>, page: usize)
    requires pages { ArePages places.old.items kept.old.items }
    requires within { page < length places.old.items }
    requires few { length places.old.items < 2 ^ 32 }
    requires room { (length places.old.items + 1) * PAGE ≤ vec_capacity kept.old }
    ensures pages { ArePages places.new.items kept.new.items }
    ensures count { length places.new.items ≡ length places.old.items }
    ensures room { vec_capacity kept.old ≤ vec_capacity kept.new }
    ensures words { (i : ℕ) → word_at places.new.items kept.new.items i ≡ word_at places.old.items kept.old.items i }
    ensures own { slice_index places.new.items page ≢ 0 }
{
    if places[page] != 0 {
        return;
    }
    let end = kept.len();
    kept.resize(end + PAGE, 0).unwrap();
    places[page] = (end / PAGE) as u32;
}

/// Writes the word at place `i`.
pub(crate) fn put(places: &mut Vec<u32>, kept: &mut Vec<u64>, i: usize, word: u64)
    requires pages { ArePages places.old.items kept.old.items }
    requires within { i / PAGE < length places.old.items }
    requires few { length places.old.items < 2 ^ 32 }
    requires room { (length places.old.items + 1) * PAGE ≤ vec_capacity kept.old }
    ensures pages { ArePages places.new.items kept.new.items }
    ensures count { length places.new.items ≡ length places.old.items }
    ensures room { vec_capacity kept.old ≤ vec_capacity kept.new }
    ensures own { word_at places.new.items kept.new.items i ≡ word }
    ensures others { (j : ℕ) → j ≢ i → word_at places.new.items kept.new.items j ≡ word_at places.old.items kept.old.items j }
{
    keep_page(places, kept, i / PAGE);
    let place = places[i / PAGE] as usize;
    kept[place * PAGE + i % PAGE] = word;
}
