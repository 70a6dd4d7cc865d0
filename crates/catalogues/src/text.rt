//! Catalogues that are read from a text.
ghost use Rattle.std.specs.Prelude.{◌≡◌, ◌<◌, ◌≤◌, ◌+◌, ◌++◌, [], ◌∷◌, Err, IfErr, IfOk, IfSome, MatchOption, None, Some, false, length, true};
ghost use Rattle.design_base.specs.declared.limits.TheConstants.{INPUT_MAX, PACKED_MAX};
ghost use Rattle.design_io.specs.InputLines.{lines_of};
ghost use Rattle.design_lines.specs.Reading.{whole};
ghost use Rattle.catalogues.specs.CatalogueText.{IsBadCatalogue, at_end, bad_line, between, catalogue_text, design_line, entries, is_blank as no_word, is_end as ends, line_words, after_line, question_of, size_of_begun};
ghost use Rattle.catalogues.specs.Listed.{unasked};

use crate::catalogue::Entry;
use crate::list::ListCatalogue;
use block_texts::{BlockLineEnd, push_block_line};
use design_base::{Memory, Query, in_bounds};
use design_io::{FirstLine, split_line, without_return};
use design_lines::{Reason, Words};
use incidence::Rows;
use std::alloc::Global;

/// Why a text gave no catalogue.
#[derive(Clone, Copy, Debug, PartialEq, Eq)]
pub enum CatalogueEnd {
    /// The first line that may not stand where it stands, or the one behind the last where an entry is not ended.
    BadLine { line: u32 },
    /// There was no memory.
    Memory,
}

// Whether the line has no word.
fn is_blank(line: &[u8]) -> bool
    ensures { result ≡ no_word (line_words line.now) }
{
    Words::of_line(without_return(line)).is_empty()
}

// Whether the line ends an entry.
fn is_end(line: &[u8]) -> bool
    ensures { result ≡ ends (line_words line.now) }
{
    let mut words = Words::of_line(without_return(line));
    words.takes("end") && words.is_empty()
}

// The question of the words of a line that begins an entry. None where one of its numbers is above 65,535.
#[tactic(auto, unfolding(crate::specs::CatalogueText::design_line, design_lines::specs::Reading::one_of_or, design_lines::specs::Reading::at_end))]
fn read_design(line: &[u8]) -> Result<Option<Query>, Reason>
    ensures { result ≡ whole design_line (line_words line.now) }
{
    let mut words = Words::of_line(without_return(line));
    if !words.takes("design") {
        return Err(words.no_fixed_word());
    }
    let query = words.normal_question()?;
    words.finish()?;
    Ok(query)
}

// The question of a line that begins an entry.
fn question_on(line: &[u8]) -> Option<Query>
    ensures { result ≡ question_of (line_words line.now) }
{
    let query = read_design(line).ok()??;
    if in_bounds(&query) { Some(query) } else { None }
}

// What a line between two entries opens: nothing where it is blank, or an entry.
fn open_entry(alloc: Global, line: &[u8]) -> Option<Option<Entry>>
    ensures { result ≡ between (line_words line.now) }
{
    if is_blank(line) {
        return Some(None);
    }
    let query = question_on(line)?;
    let blocks = Rows::new(alloc);
    Some(Some(Entry { query, blocks }))
}

// Puts an entry behind those that are ended, where the line ends it.
fn close_entry(ended: &mut Vec<Entry>, entry: Entry, line: &[u8]) -> Result<(), BlockLineEnd>
    ensures ended { IfOk result (λ _. (ends (line_words line.now) ≡ true) × (ended.new.items ≡ ended.old.items ++ entry ∷ [])) }
    ensures bad { result ≡ Err BlockLineEnd.Bad → ends (line_words line.now) ≡ false }
{
    if !is_end(line) {
        return Err(BlockLineEnd::Bad);
    }
    ended.push(entry)?;
    Ok(())
}

// Adds a line to the entry that is begun, or ends it, and answers the entry that is begun then.
#[tactic(auto, using(block_texts::proofs::RowNumbers::room_for_numbers))]
fn add_to_entry(
    alloc: Global,
    ended: &mut Vec<Entry>,
    mut entry: Entry,
    line: &[u8],
) -> Result<Option<Entry>, BlockLineEnd>
    requires room { size_of_begun (Some entry) + length line.now + 1 < PACKED_MAX }
    ensures more { IfOk result (λ begun. after_line ended.old.items (Some entry) line.now ≡ Some (record { ended = ended.new.items; begun = begun })) }
    ensures bad { result ≡ Err BlockLineEnd.Bad → after_line ended.old.items (Some entry) line.now ≡ None }
    ensures size { IfOk result (λ begun. size_of_begun begun ≤ size_of_begun (Some entry) + length line.now + 1) }
{
    match push_block_line(alloc, &mut entry.blocks, line) {
        Ok(_) => Ok(Some(entry)),
        Err(BlockLineEnd::Memory) => Err(BlockLineEnd::Memory),
        Err(BlockLineEnd::Bad) => {
            close_entry(ended, entry, line)?;
            Ok(None)
        }
    }
}

// Adds a line to what was read, and answers the entry that is begun then. `Bad` comes exactly where the line may not stand there.
fn add_line(
    alloc: Global,
    ended: &mut Vec<Entry>,
    begun: Option<Entry>,
    line: &[u8],
) -> Result<Option<Entry>, BlockLineEnd>
    requires room { size_of_begun begun + length line.now + 1 < PACKED_MAX }
    ensures more { IfOk result (λ next. after_line ended.old.items begun line.now ≡ Some (record { ended = ended.new.items; begun = next })) }
    ensures bad { result ≡ Err BlockLineEnd.Bad → after_line ended.old.items begun line.now ≡ None }
    ensures size { IfOk result (λ next. size_of_begun next ≤ size_of_begun begun + length line.now + 1) }
{
    match begun {
        Some(entry) => add_to_entry(alloc, ended, entry, line),
        None => open_entry(alloc, line).ok_or(BlockLineEnd::Bad),
    }
}

// The first line of a text.
#[tactic(auto, using(crate::proofs::Lines::bytes_of_first))]
fn first_line(text: &[u8]) -> Option<FirstLine<'_>>
    ensures line { MatchOption result (lines_of text.now ≡ []) (λ l. lines_of text.now ≡ record { bytes = l.bytes.now; is_ended = l.is_ended } ∷ lines_of l.rest.now) }
    ensures shorter { IfSome result (λ l. length l.rest.now < length text.now) }
    ensures within { IfSome result (λ l. length l.bytes.now + length l.rest.now ≤ length text.now) }
{
    split_line(text)
}

// The catalogue of the entries of a text whose lines have all been read; the place is the one behind the last.
fn finish(
    alloc: Global,
    ended: Vec<Entry>,
    begun: Option<Entry>,
    line: u32,
) -> Result<ListCatalogue, CatalogueEnd>
    ensures entries { IfOk result (λ list. at_end line (record { ended = ended.items; begun = begun }) ≡ entries list.entries) }
    ensures unasked { IfOk result (λ list. list ≡ unasked list.entries []) }
    ensures bad { IfErr result (λ end. (end ≡ CatalogueEnd.BadLine line) × (at_end line (record { ended = ended.items; begun = begun }) ≡ bad_line line)) }
{
    match begun {
        None => Ok(ListCatalogue::of(alloc, ended)),
        Some(_) => Err(CatalogueEnd::BadLine { line }),
    }
}

/// The entries of a text, in their order, as a list without failing offers. A line `design <question>` begins an entry, with a
/// question in its normal words and in bounds; block lines follow, and a line `end`. Blank lines may stand anywhere. Words may be
/// separated and surrounded by spaces and tabs, and a line may end with one carriage return. `BadLine` comes exactly where the
/// text is no such text, and names its first bad line, counted from 1; where the last entry is not ended, that is the line
/// behind the last. `Memory` comes only for want of memory. The text has at most `INPUT_MAX` bytes.
pub fn read_catalogue(alloc: Global, text: &[u8]) -> Result<ListCatalogue, CatalogueEnd>
    requires { length text.now ≤ INPUT_MAX }
    ensures entries { IfOk result (λ list. catalogue_text text.now ≡ entries list.entries) }
    ensures unasked { IfOk result (λ list. list ≡ unasked list.entries []) }
    ensures bad { IfErr result (IsBadCatalogue text.now) }
{
    let mut ended = Vec::new(alloc);
    let mut begun = None;
    let mut rest = text;
    let mut line = 1;
    while let Some(first) = first_line(rest) {
        begun = match add_line(alloc, &mut ended, begun, first.bytes) {
            Ok(next) => next,
            Err(BlockLineEnd::Bad) => return Err(CatalogueEnd::BadLine { line }),
            Err(BlockLineEnd::Memory) => return Err(CatalogueEnd::Memory),
        };
        rest = first.rest;
        line += 1;
    }
    finish(alloc, ended, begun, line)
}
