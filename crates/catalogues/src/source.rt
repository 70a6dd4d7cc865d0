//! A catalogue whose text is read from a source when it is asked first.
ghost use Rattle.std.specs.Prelude.{◌≡◌, ◌≢◌, ◌≤◌, Err, None, length, true, false};
ghost use Rattle.design_base.specs.declared.limits.TheConstants.{INPUT_MAX};
ghost use Rattle.design_io.specs.Faults.{Rose};
ghost use Rattle.catalogues.specs.Entries.{Counts, Gives, IsSpent, failures_after};
ghost use Rattle.catalogues.specs.Loading.{Answers, IsLoaded, IsReadToEnd, Loads, LoadedAs, LoadsAndAnswers, broken, is_ready_and_empty, load_result, loading, refusal, seen_of, unread};

use crate::catalogue::{Catalogue, OfferEnd};
use crate::list::ListCatalogue;
use crate::text::{CatalogueEnd, read_catalogue};
use design_base::{INPUT_MAX, Query};
use design_io::{ReadEnd, Source, read_all};
use incidence::Rows;
use std::alloc::Global;
use std::marker::Model;

/// Why a source gave no catalogue.
#[derive(Clone, Copy, Debug, PartialEq, Eq)]
pub enum LoadEnd {
    /// A read failed.
    Failed,
    /// There are more bytes than the limit, and the first one past it stands on this line, from 1.
    TooLong { line: u32 },
    /// The first bad line of the text.
    BadLine { line: u32 },
    /// There was no memory.
    Memory,
}

// How far a catalogue is loaded.
#[derive(Drop)]
enum State {
    Unread,
    Ready(ListCatalogue),
    Broken(LoadEnd),
}

/// A catalogue whose text stands in a source, of at most `INPUT_MAX` bytes. It is unread at first, and the first offer loads
/// it: it is ready with the entries of the text then, or broken for good by what refused the text. It does not tell its entries.
#[derive(Drop)]
pub struct SourceCatalogue<S: Source> {
    alloc: Global,
    source: S,
    state: State,
    offers: u64,
    failures: u64,
}

impl<S: Source> Model for SourceCatalogue<S> {
    ghost use Rattle.catalogues.specs.Loading.{Sourced, loading};

    ghost Value = { Sourced S };

    ghost view = { λ s. record {
      source = s.source;
      state = loading s.state;
      offers = s.offers;
      failures = s.failures;
    } };
}

// What a text is loaded as.
fn load_text(alloc: Global, text: &[u8]) -> State
    requires { length text.now ≤ INPUT_MAX }
    ensures loaded { LoadedAs text.now (loading result) }
    ensures read { loading result ≢ broken LoadEnd.Failed }
{
    match read_catalogue(alloc, text) {
        Ok(list) => State::Ready(list),
        Err(CatalogueEnd::BadLine { line }) => State::Broken(LoadEnd::BadLine { line }),
        Err(CatalogueEnd::Memory) => State::Broken(LoadEnd::Memory),
    }
}

// What a source is loaded as.
#[tactic(auto, using(crate::proofs::Loads::loads_all, crate::proofs::Loads::loads_failed, crate::proofs::Loads::loads_without_memory, crate::proofs::Loads::loads_too_long))]
fn load_source<S: Source>(alloc: Global, source: &mut S) -> State
    ensures loads { Loads (S.left source.old) (loading result) }
    ensures end { IsReadToEnd (S.left source.old) (S.left source.new) (loading result) }
    ensures cause { loading result ≡ broken LoadEnd.Failed → Rose (S.faults source.old) (S.faults source.new) }
    ensures kept { loading result ≢ broken LoadEnd.Failed → S.faults source.new ≡ S.faults source.old }
    ensures later { S.faults source.old ≤ S.faults source.new }
{
    match read_all(alloc, source, INPUT_MAX) {
        Ok(text) => load_text(alloc, &text),
        Err(ReadEnd::Failed) => State::Broken(LoadEnd::Failed),
        Err(ReadEnd::TooLong { line }) => State::Broken(LoadEnd::TooLong { line }),
        Err(ReadEnd::Memory) => State::Broken(LoadEnd::Memory),
    }
}

// Whether nothing was read yet.
fn is_unread(state: &State) -> bool
    ensures unread { result ≡ true → loading state.now ≡ unread }
    ensures loaded { result ≡ false → IsLoaded None (loading state.now) (loading state.now) }
{
    matches!(state, State::Unread)
}

// How loading ended.
fn result_of(state: &State) -> Result<(), LoadEnd>
    ensures { result ≡ load_result (loading state.now) }
{
    match state {
        State::Broken(end) => Err(*end),
        _ => Ok(()),
    }
}

// What is offered from a loaded catalogue.
fn offer_from(state: &mut State, q: &Query) -> Result<Option<Rows>, OfferEnd>
    requires { IsLoaded None (loading state.old) (loading state.old) }
    ensures { Answers q.now (loading state.old) (loading state.new) result }
{
    match state {
        State::Ready(list) => Ok(list.take(q)),
        State::Broken(LoadEnd::Memory) => Err(OfferEnd::Memory),
        _ => Err(OfferEnd::Failed),
    }
}

impl<S: Source> SourceCatalogue<S> {
    /// A catalogue over a source, of which nothing is read yet.
    pub fn new(alloc: Global, source: S) -> Self
        ensures { result ≡ record { source = source; state = unread; offers = 0; failures = 0 } }
    {
        SourceCatalogue {
            alloc,
            source,
            state: State::Unread,
            offers: 0,
            failures: 0,
        }
    }

    /// Reads the source to its end. The catalogue is unread. It is ready then with the entries of the text, or broken by the
    /// refusal. `Failed` comes only where the count of faults of the source rose, which else stays, `TooLong` exactly where more than `INPUT_MAX`
    /// bytes came, with the line of the first one past them, `BadLine` exactly where the text that was read to its end is no
    /// catalogue text, with its first bad line, and `Memory` only for want of memory.
    pub fn load(&mut self) -> Result<(), LoadEnd>
        requires { self.old.state ≡ unread }
        ensures loads { Loads (S.left self.old.source) self.new.state }
        ensures answer { result ≡ load_result self.new.state }
        ensures end { IsReadToEnd (S.left self.old.source) (S.left self.new.source) self.new.state }
        ensures cause { result ≡ Err LoadEnd.Failed → Rose (S.faults self.old.source) (S.faults self.new.source) }
        ensures kept { result ≢ Err LoadEnd.Failed → S.faults self.new.source ≡ S.faults self.old.source }
        ensures later { S.faults self.old.source ≤ S.faults self.new.source }
        ensures counts { (self.new.offers ≡ self.old.offers) × (self.new.failures ≡ self.old.failures) }
    {
        self.state = load_source(self.alloc, &mut self.source);
        result_of(&self.state)
    }

    // Loads the catalogue where it is unread.
    fn make_loaded(&mut self)
        ensures loaded { IsLoaded (S.left self.old.source) self.old.state self.new.state }
        ensures source { self.old.state ≢ unread → self.new.source ≡ self.old.source }
        ensures kept { self.new.state ≢ broken LoadEnd.Failed → S.faults self.new.source ≡ S.faults self.old.source }
        ensures counts { (self.new.offers ≡ self.old.offers) × (self.new.failures ≡ self.old.failures) }
    {
        if is_unread(&self.state) {
            self.load().ok();
        }
    }
}

impl<S: Source + Drop> Catalogue for SourceCatalogue<S> {
    ghost seen = { λ s. seen_of s };

    fn offer(&mut self, q: &Query) -> Result<Option<Rows>, OfferEnd>
        ensures given { Gives q.now (seen_of self.old) (seen_of self.new) result }
        ensures counts { Counts (seen_of self.old) (seen_of self.new) result }
        ensures answers { LoadsAndAnswers (S.left self.old.source) q.now self.old.state self.new.state result }
        ensures source { self.old.state ≢ unread → self.new.source ≡ self.old.source }
        ensures kept { self.new.state ≢ broken LoadEnd.Failed → S.faults self.new.source ≡ S.faults self.old.source }
    {
        self.make_loaded();
        self.offers = self.offers.saturating_add(1);
        let offered = offer_from(&mut self.state, q);
        if matches!(offered, Err(OfferEnd::Failed)) {
            self.failures = self.failures.saturating_add(1);
        }
        offered
    }

    fn spent(&self) -> bool
        ensures spent { IsSpent (seen_of self.now) result }
        ensures empty { result ≡ is_ready_and_empty self.now.state }
    {
        match &self.state {
            State::Ready(list) => list.spent(),
            _ => false,
        }
    }
}
