//! Transversal designs, told by one bit for each two points of different groups.
ghost use Rattle.std.specs.Prelude.{◌≡◌, ◌≢◌, ◌++◌, ◌∷◌, [], ◌*◌, ◌-◌, ◌^◌, ◌<◌, ◌≤◌, All, IsTrue, List, length, vec_capacity, ℕ};
ghost use Rattle.std.specs.Int.{bit_at};
ghost use Rattle.design_base.specs.Blocks.{IsTd};
ghost use Rattle.design_base.specs.declared.limits.TheConstants.{TD_K_MAX, TD_N_MAX};
ghost use Rattle.design_checks.specs.Bits.{AreSet, IsAcross, MeetsLater, Tells};
ghost use Rattle.design_checks.specs.declared.transversal.TheConstants.{WORD_BITS};

use design_base::{TD_K_MAX, TD_N_MAX};
use incidence::Rows;

// The bits of a word: one for each point of a group.
const WORD_BITS: u16 = 128;

/// The words in a line of bits: one for each group.
pub(crate) const GROUPS: usize = TD_K_MAX as usize;
/// The words of all lines: a line for each point of a group.
pub(crate) const WORDS: usize = TD_N_MAX as usize * GROUPS;

// Whether the block has k points, one of each group of n points in the order of the groups.
fn is_across(block: &[u16], k: u16, n: u16) -> bool
    requires { (k ≤ TD_K_MAX) × (n ≤ TD_N_MAX) }
    ensures { IsTrue result → IsAcross k n block.now }
{
    if block.len() != usize::from(k) {
        return false;
    }
    for j in 0..k {
        let first = j * n;
        let point = block[j as usize];
        if point < first || first + n <= point {
            return false;
        }
    }
    true
}

// Whether each block has k points, one of each group of n points in the order of the groups.
fn are_across(rows: &Rows, k: u16, n: u16) -> bool
    requires { (k ≤ TD_K_MAX) × (n ≤ TD_N_MAX) }
    ensures { IsTrue result → All (IsAcross k n) rows.now }
{
    for i in 0..rows.len() {
        if !is_across(rows.row(i), k, n) {
            return false;
        }
    }
    true
}

// The word with bit b set.
fn with_bit(word: u128, b: u16) -> u128
    requires { b < WORD_BITS }
    ensures set { bit_at result b ≡ 1 }
    ensures others { (i : ℕ) → i ≢ b → bit_at result i ≡ bit_at word i }
{
    word | (1 << b)
}

// Sets the bits of the block's point of group i and its points of later groups.
fn note_block(block: &[u16], k: u16, n: u16, i: u16, words: &mut [u128])
    requires block { IsAcross k n block.now }
    requires group { (i < k) × (k ≤ TD_K_MAX) × (n ≤ TD_N_MAX) }
    requires room { length words.old ≡ n * TD_K_MAX }
    ensures { (B : List (List ℕ)) → Tells words.old k n i B → Tells words.new k n i (B ++ block.now ∷ []) }
{
    let line = (block[i as usize] - i * n) as usize * GROUPS;
    for j in i + 1..k {
        let place = line + j as usize;
        words[place] = with_bit(words[place], block[j as usize] - j * n);
    }
}

// Sets the bits of the points of group i and those of later groups that they meet.
fn note_blocks(rows: &Rows, k: u16, n: u16, i: u16, words: &mut [u128])
    requires blocks { All (IsAcross k n) rows.now }
    requires group { (i < k) × (k ≤ TD_K_MAX) × (n ≤ TD_N_MAX) }
    requires room { length words.old ≡ n * TD_K_MAX }
    ensures { Tells words.new k n i rows.now }
{
    words.fill(0);
    for m in 0..rows.len() {
        note_block(rows.row(m), k, n, i, words);
    }
}

// Whether the words are all the one.
fn are_all(words: &[u128], word: u128) -> bool
    ensures { IsTrue result → All (λ w. w ≡ word) words.now }
{
    words.iter().all(|w| *w == word)
}

// Whether all bits of the points of group i and those of later groups are set.
fn are_set(words: &[u128], k: u16, n: u16, i: u16) -> bool
    requires group { (i < k) × (k ≤ TD_K_MAX) × (0 < n) × (n ≤ TD_N_MAX) }
    requires room { length words.now ≡ n * TD_K_MAX }
    ensures { IsTrue result → AreSet words.now k n i }
{
    let full = u128::MAX >> (WORD_BITS - n);
    for a in 0..n {
        let line = a as usize * GROUPS;
        if !are_all(&words[line + i as usize + 1..line + k as usize], full) {
            return false;
        }
    }
    true
}

// Whether each two points of different groups meet.
fn all_meet(rows: &Rows, k: u16, n: u16, words: &mut [u128]) -> bool
    requires blocks { All (IsAcross k n) rows.now }
    requires groups { (k ≤ TD_K_MAX) × (0 < n) × (n ≤ TD_N_MAX) }
    requires room { length words.old ≡ n * TD_K_MAX }
    ensures { IsTrue result → (i : ℕ) → i < k → MeetsLater k n i rows.now }
{
    for i in 0..k {
        note_blocks(rows, k, n, i, words);
        if !are_set(words, k, n, i) {
            return false;
        }
    }
    true
}

/// Whether n * n blocks of k points, one of each group of n points, hold each two points of different groups. They are a
/// transversal design then. The answer false says nothing.
pub(crate) fn is_td(rows: &Rows, k: u16, n: u16, words: &mut Vec<u128>) -> bool
    requires groups { (2 ≤ k) × (k ≤ TD_K_MAX) × (0 < n) × (n ≤ TD_N_MAX) }
    requires room { WORDS ≤ vec_capacity words.old }
    ensures room { vec_capacity words.old ≤ vec_capacity words.new }
    ensures design { IsTrue result → IsTd rows.now k n }
{
    if rows.len() != usize::from(n) * usize::from(n) {
        return false;
    }
    words.clear();
    words.resize(n as usize * GROUPS, 0).unwrap();
    are_across(rows, k, n) && all_meet(rows, k, n, words)
}
