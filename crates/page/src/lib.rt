// Reading one page: its header, its row index and its rows. A page is its own part of the image.
#![tactic(auto)]

ghost use Rattle.std.specs.Prelude.{◌≡◌, ◌+◌, ◌-◌, ◌^◌, ◌<◌, ◌≤◌, length, set, take, drop};
ghost use Rattle.number.specs.Number.{le16};
ghost use Rattle.refusal.specs.Answer.{answer_of};
ghost use Rattle.format.specs.Size.{heap_start};
ghost use Rattle.lists.specs.Write.{written};
ghost use Rattle.lists.specs.Nth.{nth};
ghost use Rattle.row.specs.Check.{check_row, check_of};
ghost use Rattle.page.specs.Header.{next_page, number_agrees, type_agrees, rowless, entries, num_rows};
ghost use Rattle.page.specs.Index.{rest_size, index_size, flags_at, present, row_start, present_from};
ghost use Rattle.page.specs.Found.{row_of, no_row};
ghost use Rattle.page.specs.Read.{before_index, judged, entry_places, row_places, read_page, row_count};
ghost use Rattle.page.specs.Row.{page_row, row_at_of, Near};
ghost use Rattle.page.specs.OneRow.{read_row};
ghost use Rattle.page.specs.Private.{PageIndex, good_index, rows_index, group_ones, tested_index, rows_from, checked_count, judged_at};

use format::{Page, RowGroup};
use refusal::Refusal;
use row::RowError;
use std::marker::Model;
use table::Table;

// A row: its page's number, its entry in the page's row index, and where it starts in the page.
#[derive(Clone, Copy, Debug, PartialEq, Eq)]
pub struct Row {
    pub page: u32,
    pub entry: u16,
    pub start: u32,
}

// The row index of a page, which it fits: the entries behind the page's rows.
#[derive(Drop)]
struct RowIndex<'a> {
    page: &'a [u8],
    entries: u16,
}

impl<'a> Model for RowIndex<'a> {
    ghost Value = { PageIndex };

    ghost view = { λ r. record { page = r.page.now; entries = r.entries } };

    ghost invariant = { λ r. index_size r.entries ≤ length r.page.now };
}

// Whether the page names itself.
#[tactic(auto, unfolding(crate::specs::Header::number_agrees))]
fn number_agrees(page: &[u8], number: u32) -> bool
    ensures { result ≡ number_agrees number page.now }
{
    number::u32_at(page, 0x04) == number
}

// Whether it names the table.
#[tactic(auto, unfolding(crate::specs::Header::type_agrees))]
fn type_agrees(page: &[u8], table: Table) -> bool
    ensures { result ≡ type_agrees table page.now }
{
    number::u32_at(page, 0x08) == u32::from(table)
}

// Whether the page has flag 40, and so no rows.
#[tactic(auto, unfolding(crate::specs::Header::rowless))]
fn is_rowless(page: &[u8]) -> bool
    ensures { result ≡ rowless page.now }
{
    number::byte_at(page, 0x1b) / 0x40 % 2 == 1
}

// The number of entries of the page's row index: the low 13 bits of the row counts.
#[tactic(auto, unfolding(crate::specs::Header::entries))]
fn entry_count(page: &[u8]) -> u16
    ensures { (result ≡ entries page.now) × (result < 2 ^ 13) }
{
    (number::u24_at(page, 0x18) % 0x2000) as u16
}

// The number of present rows, as the page counts them: the high 11 bits of the row counts.
#[tactic(auto, unfolding(crate::specs::Header::num_rows))]
fn num_rows(page: &[u8]) -> u32
    ensures { result ≡ num_rows page.now }
{
    number::u24_at(page, 0x18) / 0x2000
}

// Rule 5.3: bytes that a rest of fewer than 16 entries takes: four for pad bytes and flags, two for each offset.
#[tactic(auto, using(lists::proofs::Choice::tests))]
fn rest_size(rest: u16) -> usize
    ensures { result ≡ rest_size rest }
{
    if rest == 0 { 0 } else { 4 + 2 * rest as usize }
}

// Rule 5.3: bytes of a row index of n entries: whole groups times their size, and the rest's part.
#[tactic(auto, using(crate::proofs::EntriesInside::index_bound), unfolding(crate::specs::Index::index_size))]
fn index_size(n: u16) -> usize
    ensures { result ≡ index_size n }
{
    RowGroup::SIZE * (n / 16) as usize + rest_size(n % 16)
}

// The part of a page before an index of so many entries, in which its rows lie; none where the index is longer than the page.
fn before_entries(page: &[u8], entries: u16) -> &[u8]
    ensures { result.now ≡ take (length page.now - index_size «entries») page.now }
{
    let start = page.len().saturating_sub(index_size(entries));
    &page[..start]
}

impl<'a> RowIndex<'a> {
    // The row index of a page, if it is good: it fits, and as many entries are present as the page counts.
    fn read(page: &'a [u8]) -> Option<Self>
        ensures { result ≡ good_index page.now }
    {
        let entries = entry_count(page);
        let size = index_size(entries);
        let end = Page::HEAP + size;
        if page.len() < end {
            return None;
        }
        let index = RowIndex { page, entries };
        let counted = num_rows(page);
        let ones = index.present_count();
        (ones == counted).then_some(index)
    }

    // The row index of a page with rows: it has no flag 40, and its index is good. With flag 40 no presence flag is looked at.
    fn of_rows(page: &'a [u8]) -> Option<Self>
        ensures { result ≡ rows_index page.now }
    {
        if is_rowless(page) {
            None
        } else {
            Self::read(page)
        }
    }

    // The part of the page before its row index, in which its rows lie.
    fn before(&self) -> &'a [u8]
        ensures { result.now ≡ take (length self.now.page - index_size self.now.entries) self.now.page }
    {
        before_entries(self.page, self.entries)
    }

    // The presence flags of entry i's group.
    #[tactic(auto, using(crate::proofs::EntriesInside::held_room), unfolding(crate::specs::Index::flags_at))]
    fn flags_of(&self, i: u16) -> u16
        requires { i < self.now.entries }
        ensures { result ≡ le16 self.now.page (flags_at self.now.page i) }
    {
        let group = (i / 16) as usize;
        number::u16_at(self.page, self.page.len() - RowGroup::SIZE * group - 4)
    }

    // Whether entry i of the row index is present.
    #[tactic(auto, unfolding(crate::specs::Index::present))]
    fn is_present(&self, i: u16) -> bool
        requires { i < self.now.entries }
        ensures { result ≡ present self.now.page i }
    {
        (self.flags_of(i) >> (i % 16)) % 2 == 1
    }

    // The ones among the flags of the group whose first entry is i.
    fn group_ones(&self, i: u16) -> u32
        requires { i < self.now.entries }
        ensures { result ≡ group_ones self.now.page (self.now.entries - i) i }
    {
        let flags = self.flags_of(i);
        let left = self.entries - i;
        if left < 16 {
            return u16::count_ones(flags % (1u16 << left));
        }
        u16::count_ones(flags)
    }

    // The ones among the flags of all entries, summed group by group.
    fn present_count(&self) -> u32
        ensures { result ≡ length (present_from self.now.page self.now.entries 0) }
    {
        let mut count: u32 = 0;
        for group in 0..self.entries.div_ceil(16) {
            count += self.group_ones(16 * group);
        }
        count
    }

    // Where the row of entry i starts in the page.
    #[tactic(auto, using(crate::proofs::EntriesInside::held_room), unfolding(crate::specs::Index::row_start, crate::specs::Index::offset_at, crate::specs::Index::flags_at))]
    fn row_start(&self, i: u16) -> usize
        requires { i < self.now.entries }
        ensures { (result ≡ row_start self.now.page i) × (result ≤ heap_start + 0xffff) }
    {
        let group = (i / 16) as usize;
        let rest = (i % 16) as usize;
        let flags = self.page.len() - RowGroup::SIZE * group - 4;
        Page::HEAP + (number::u16_at(self.page, flags - 2 - 2 * rest) as usize)
    }

    // The row of entry i on a page of this number.
    fn row_of(&self, number: u32, i: u16) -> Row
        requires { i < self.now.entries }
        ensures { (result ≡ row_of number self.now.page i) × (result.start ≤ heap_start + 0xffff) }
    {
        Row {
            page: number,
            entry: i,
            start: self.row_start(i) as u32,
        }
    }

    // Checks the present rows and counts them.
    fn read_rows(&self, number: u32, table: Table) -> Result<usize, Refusal>
        ensures { answer_of result ≡ checked_count table
            (take (length self.now.page - index_size self.now.entries) self.now.page)
            (rows_from number self.now.page self.now.entries 0) }
    {
        let before = self.before();
        let mut found: usize = 0;
        for i in 0..self.entries {
            if self.is_present(i) {
                judge_row(before, table, self.row_of(number, i))?;
                found += 1;
            }
        }
        Ok(found)
    }

    // Writes the places of the present rows, and counts them.
    fn fill_rows(&self, start: u32, list: &mut [u32]) -> usize
        requires { start + heap_start + 0xffff ≤ 0xffff_ffff }
        ensures { (result ≡ length (present_from self.now.page self.now.entries 0))
            × (list.new ≡ written list.old (entry_places start self.now.page (present_from self.now.page self.now.entries 0))) }
    {
        let mut at: usize = 0;
        for entry in 0..self.entries {
            if self.is_present(entry) {
                put(list, at, start + (self.row_start(entry) as u32));
                at += 1;
            }
        }
        at
    }

    // Finds row k among the present rows.
    fn find_row(&self, number: u32, k: usize) -> Result<Row, usize>
        ensures { (row_at_of result ≡ nth no_row (rows_from number self.now.page self.now.entries 0) k 0) × Near result }
    {
        let mut found: usize = 0;
        for i in 0..self.entries {
            if self.is_present(i) {
                if found == k {
                    return Ok(self.row_of(number, i));
                }
                found += 1;
            }
        }
        Err(found)
    }
}

// The tests of a page: its number, its type, flag 40 and its row index. They leave the row index, which is good, or none where
// the page has flag 40.
#[tactic(auto, using(crate::proofs::PageTests::number_rung, crate::proofs::PageTests::type_rung, crate::proofs::PageTests::rowless_rung, crate::proofs::PageTests::index_rung, crate::proofs::PageTests::good_rung))]
fn test_page(page: &[u8], number: u32, table: Table) -> Result<Option<RowIndex<'_>>, Refusal>
    ensures { answer_of result ≡ tested_index number table page.now }
{
    if !number_agrees(page, number) {
        return Err(Refusal::PageNumber(number));
    }
    if !type_agrees(page, table) {
        return Err(Refusal::PageType(number));
    }
    if is_rowless(page) {
        return Ok(None);
    }
    let index = RowIndex::read(page).ok_or(Refusal::RowIndex(number))?;
    Ok(Some(index))
}

// The check of the row at a start, among the bytes before the row index.
fn check_at(before: &[u8], start: usize, table: Table) -> Result<(), RowError>
    ensures { check_of result ≡ check_row table (drop start before.now) }
{
    if before.len() < start {
        return Err(RowError::Row);
    }
    row::check_row(table, &before[start..])
}

// The check of a row, whose page and entry 14 and 15 carry.
fn judge_row(before: &[u8], table: Table, row: Row) -> Result<Row, Refusal>
    ensures { answer_of result ≡ judged table before.now row }
{
    let Row { page, entry, start } = row;
    match check_at(before, start as usize, table) {
        Ok(()) => Ok(row),
        Err(RowError::Row) => Err(Refusal::RowShort { page, entry }),
        Err(RowError::Text) => Err(Refusal::TextFault { page, entry }),
    }
}

// The number of the page's rows, or the refusal. The places of the rows are written by fill.
#[tactic(auto, using(crate::proofs::PageTests::index_told, crate::proofs::PageTests::counted_rows, crate::proofs::PageTests::no_rows, crate::proofs::PageTests::rows_refused))]
pub fn read(page: &[u8], number: u32, table: Table) -> Result<usize, Refusal>
    ensures { answer_of result ≡ row_count (read_page number table page.now) }
{
    match test_page(page, number, table)? {
        Some(index) => index.read_rows(number, table),
        None => Ok(0),
    }
}

fn put(list: &mut [u32], at: usize, place: u32)
    ensures { list.new ≡ set list.old at place }
{
    if at < list.len() {
        list[at] = place;
    }
}

// Writes the places of the present rows to the front of the list, as many as it takes, for a page that starts at this
// byte of the image, and counts them. The rows are not checked: read does that.
pub fn fill(page: &[u8], start: u32, list: &mut [u32]) -> usize
    ensures { (result ≡ length (row_places start page.now))
        × (list.new ≡ written list.old (row_places start page.now)) }
{
    if 0xffff_ffff - (Page::HEAP as u32) - 0xffff < start {
        return 0;
    }
    match RowIndex::of_rows(page) {
        Some(index) => index.fill_rows(start, list),
        None => 0,
    }
}

// Row k of a page of this number, counted from 0 among its present rows, or how many rows there are.
#[tactic(auto, using(crate::proofs::RowEntries::entries_kept, crate::proofs::RowEntries::entries_none, lists::proofs::Nth::nth_none))]
pub fn row_at(page: &[u8], number: u32, k: usize) -> Result<Row, usize>
    ensures { (row_at_of result ≡ page_row number page.now k) × Near result }
{
    match RowIndex::of_rows(page) {
        Some(index) => index.find_row(number, k),
        None => Err(0),
    }
}

// The check of the row that was found for a rank, where it starts at a place of the page.
#[tactic(auto, using(lists::proofs::Choice::tests))]
fn judge_found(
    before: &[u8],
    table: Table,
    start: u32,
    found: Result<Row, usize>,
) -> Result<Row, Refusal>
    ensures { answer_of result ≡ judged_at table before.now start (row_at_of found) }
{
    match found {
        Ok(row) => {
            if row.start != start {
                return Err(Refusal::NoRow);
            }
            judge_row(before, table, row)
        }
        Err(_) => Err(Refusal::NoRow),
    }
}

// Reads one row of a page, which is to start at a place of the page and to have a rank among its present rows. No other
// row is looked at.
pub fn read_row(
    page: &[u8],
    number: u32,
    table: Table,
    start: u32,
    rank: usize,
) -> Result<Row, Refusal>
    ensures { answer_of result ≡ read_row number table page.now start rank }
{
    match test_page(page, number, table)? {
        Some(index) => {
            let found = index.find_row(number, rank);
            judge_found(index.before(), table, start, found)
        }
        None => Err(Refusal::NoRow),
    }
}

// The part of a page before its row index, in which its rows lie.
#[tactic(auto, unfolding(crate::specs::Read::before_index))]
pub fn before_index(page: &[u8]) -> &[u8]
    ensures { result.now ≡ before_index page.now }
{
    before_entries(page, entry_count(page))
}

// The next page of the chain.
pub fn next(page: &[u8]) -> u32
    ensures { result ≡ next_page page.now }
{
    number::u32_at(page, 0x0c)
}
