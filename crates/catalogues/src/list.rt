//! Entries in a list.
ghost use Rattle.std.specs.Prelude.{◌≡◌, ◌↔◌, ◌++◌, [], ◌∷◌, Contains, IfErr, IsErr, IsTrue, MatchResult, OnErr, OnOk, length};
ghost use Rattle.design_io.specs.Faults.{counted};
ghost use Rattle.catalogues.specs.Entries.{Counts, Gives, IsSpent, place_of as place_in, take_out};
ghost use Rattle.catalogues.specs.Listed.{after_failed_offer, after_offer, seen_of, unasked};

use crate::catalogue::{Catalogue, Entry, OfferEnd};
use design_base::{Memory, Query, is_same};
use incidence::Rows;
use std::alloc::Global;
use std::marker::Model;

/// A list of entries, which it tells. Offer number i, from 1, fails exactly where i is in `failing`.
#[derive(Drop)]
pub struct ListCatalogue {
    entries: Vec<Entry>,
    failing: Vec<u32>,
    offers: u64,
    failures: u64,
}

impl Model for ListCatalogue {
    ghost use Rattle.catalogues.specs.Listed.{Listed};

    ghost Value = { Listed };

    ghost view = { λ s. record {
      entries = s.entries.items;
      failing = s.failing.items;
      offers = s.offers;
      failures = s.failures;
    } };
}

// The place of the first entry of the question.
fn place_of(entries: &[Entry], q: &Query) -> Option<usize>
    ensures { result ≡ place_in q.now entries.now }
{
    entries.iter().position(|entry| is_same(&entry.query, q))
}

// Takes out the first entry of the question.
fn take_first(entries: &mut Vec<Entry>, q: &Query) -> Option<Rows>
    ensures { (result ≡ (take_out q.now entries.old.items).blocks) × (entries.new.items ≡ (take_out q.now entries.old.items).entries) }
{
    let Some(i) = place_of(entries, q) else {
        return None;
    };
    let entry = entries.remove(i);
    Some(entry.blocks)
}

// Whether this is the number of an offer that fails.
fn fails(failing: &[u32], number: u64) -> bool
    ensures { IsTrue result ↔ Contains failing.now number }
{
    failing.iter().any(|n| u64::from(*n) == number)
}

impl ListCatalogue {
    /// No entries. No memory is taken until one is added. The offers fail whose numbers are in `failing`, counted from 1.
    pub fn new(alloc: Global, failing: Vec<u32>) -> Self
        ensures { result ≡ unasked [] failing.items }
    {
        ListCatalogue {
            entries: Vec::new(alloc),
            failing,
            offers: 0,
            failures: 0,
        }
    }

    // These entries, of which nothing was asked yet, and no offer fails.
    pub(crate) fn of(alloc: Global, entries: Vec<Entry>) -> Self
        ensures { result ≡ unasked entries.items [] }
    {
        ListCatalogue {
            entries,
            failing: Vec::new(alloc),
            offers: 0,
            failures: 0,
        }
    }

    // Takes out the first entry of the question. No offer is counted.
    pub(crate) fn take(&mut self, q: &Query) -> Option<Rows>
        ensures blocks { result ≡ (take_out q.now self.old.entries).blocks }
        ensures entries { self.new ≡ record self.old { entries = (take_out q.now self.old.entries).entries } }
    {
        take_first(&mut self.entries, q)
    }

    /// Puts an entry behind the others. Any question may have any block list. After `Memory`, which comes only for want of memory,
    /// the list is as before.
    pub fn add(&mut self, query: Query, blocks: Rows) -> Result<(), Memory>
        ensures ok { OnOk result (self.new ≡ record self.old { entries = self.old.entries ++ (record { query = query; blocks = blocks }) ∷ [] }) }
        ensures error { OnErr result (self.new ≡ self.old) }
    {
        match self.entries.push(Entry { query, blocks }) {
            Ok(()) => Ok(()),
            Err(_) => Err(Memory),
        }
    }
}

impl Catalogue for ListCatalogue {
    ghost seen = { seen_of };

    fn offer(&mut self, q: &Query) -> Result<Option<Rows>, OfferEnd>
        ensures given { Gives q.now (seen_of self.old) (seen_of self.new) result }
        ensures counts { Counts (seen_of self.old) (seen_of self.new) result }
        ensures fails { IsErr result ↔ Contains self.old.failing (counted self.old.offers) }
        ensures end { IfErr result (λ end. end ≡ OfferEnd.Failed) }
        ensures after { MatchResult result (λ _. self.new ≡ after_offer q.now self.old) (λ _. self.new ≡ after_failed_offer self.old) }
    {
        let number = self.offers.saturating_add(1);
        let failed = fails(&self.failing, number);
        self.offers = number;
        if failed {
            self.failures = self.failures.saturating_add(1);
            return Err(OfferEnd::Failed);
        }
        Ok(take_first(&mut self.entries, q))
    }

    fn spent(&self) -> bool
        ensures { IsSpent (seen_of self.now) result }
    {
        self.entries.is_empty()
    }
}
