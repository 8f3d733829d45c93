// Along a table's chain of pages: the walk, the places of its rows, and one row by its number in the table.
#![tactic(auto)]

ghost use Rattle.std.specs.Prelude.{◌≡◌, ◌||◌, ◌+◌, min, length, eqb, leb};
ghost use Rattle.lists.specs.Nth.{nth};
ghost use Rattle.lists.specs.Write.{written};
ghost use Rattle.directory.specs.Chain.{chain_in};
ghost use Rattle.chain.specs.Walk.{walk_from};
ghost use Rattle.chain.specs.Tally.{rows_counted, pages_counted, tally, progress_of, walked_of};
ghost use Rattle.chain.specs.Held.{page_held};
ghost use Rattle.page.specs.Found.{no_row};
ghost use Rattle.page.specs.Row.{row_at_of};
ghost use Rattle.chain.specs.File.{page_part, file_pages, rows_first, page_places, places_along};
ghost use Rattle.chain.specs.Chain.{chain_walk, chain_rows, chain_places};

use directory::{Chain, Directory};
use format::{Block, Page};
use intake::Memory;
use page::Row;
use refusal::Refusal;
use table::Table;

// How far a walk comes, with the number of rows found and of pages walked; Waiting is for a page that is not held.
#[derive(Clone, Copy, Debug, PartialEq, Eq)]
pub enum Walked {
    Full { rows: usize, pages: u64 },
    Waiting { page: u32, rows: usize, pages: u64 },
}

// What a question answers where it is not refused: what was asked for, or the page that is waited for.
#[derive(Clone, Copy, Debug, PartialEq, Eq)]
pub enum Reply<T> {
    Found(T),
    Waiting { page: u32, rows: usize, pages: u64 },
}

impl Walked {
    // The number of rows found.
    pub fn rows(self) -> usize
        ensures { result ≡ rows_counted (progress_of self) }
    {
        match self {
            Walked::Full { rows, .. } => rows,
            Walked::Waiting { rows, .. } => rows,
        }
    }

    // The number of pages walked.
    pub fn pages(self) -> u64
        ensures { result ≡ pages_counted (progress_of self) }
    {
        match self {
            Walked::Full { pages, .. } => pages,
            Walked::Waiting { pages, .. } => pages,
        }
    }
}

impl<T> Reply<T> {
    // Waiting for a page before any row was found.
    pub fn waiting(page: u32) -> Self
        ensures { result ≡ Reply.Waiting page 0 0 }
    {
        Reply::Waiting {
            page,
            rows: 0,
            pages: 0,
        }
    }
}

// Whether every block of a page is held.
pub fn is_held(size: u32, number: u32, map: &[u64]) -> bool
    ensures { result ≡ page_held size map.now number }
{
    let blocks = (size as u64) / (Block::SIZE as u64);
    let first = (number as u64) * blocks;
    (0..blocks).all(|i| bitmap::has_bit(map, first + i))
}

// A page's part of the image, as far as the image has it.
pub fn part(image: &[u8], number: u32, size: u32) -> &[u8]
    ensures { result.now ≡ page_part size image.now number }
{
    let page = Page::new(number, size);
    lists::subslice(image, page.start, page.end)
}

// Whether a page has been met before, as far as can be told: it is the mark, or so many pages were walked that no other is left.
fn is_again(page: u32, mark: u32, pages: u64, page_count: u64) -> bool
    ensures { result ≡ (eqb page mark || leb (min page_count 0x1_0000_0000) (pages + 1)) }
{
    if page == mark {
        return true;
    }
    if 0xffff_ffff <= pages {
        return true;
    }
    page_count <= pages + 1
}

// Walks a chain. The pages met are not kept: the walk counts, and keeps one page as a mark, a later one each time the
// pages walked have doubled, so that a loop of any length meets the mark again after a few turns.
fn walk_chain(chain: Chain, table: Table, memory: Memory) -> Result<Walked, Refusal>
    ensures { walked_of result ≡ tally (walk_from (file_pages chain table memory.entry.image.now memory.entry.map.now) chain.first_page) }
{
    let mut page = chain.first_page;
    let mut holder: u32 = 0;
    let mut rows: usize = 0;
    let mut pages: u64 = 0;
    let mut mark: u32 = 0;
    while Page::linkable(chain.page_count, page) {
        if is_again(page, mark, pages, chain.page_count) {
            return Err(Refusal::ChainLoop);
        }
        if !is_held(chain.len_page, page, memory.map) {
            return Ok(Walked::Waiting { page, rows, pages });
        }
        let bytes = part(memory.image, page, chain.len_page);
        rows += page::read(bytes, page, table)?;
        pages += 1;
        if page == chain.last_page {
            return Ok(Walked::Full { rows, pages });
        }
        if u64::count_ones(pages) == 1 {
            mark = page;
        }
        holder = page;
        page = page::next(bytes);
    }
    Err(Refusal::PageLink(holder))
}

// Walks the chain of a table.
pub fn walk(directory: Directory, table: Table, memory: Memory) -> Result<Walked, Refusal>
    ensures { walked_of result ≡ tally (chain_walk table memory.entry.image.now memory.entry.map.now (chain_in directory table)) }
{
    let chain = directory.chain(table)?;
    walk_chain(chain, table, memory)
}

// Writes the places of a page's rows to the front of the list, as many as it takes, and counts them.
fn fill_page(size: u32, number: u32, image: &[u8], list: &mut [u32]) -> usize
    ensures { (result ≡ length (page_places size image.now number)) ×
        (list.new ≡ written list.old (page_places size image.now number)) }
{
    let page = Page::new(number, size);
    let place = page.start;
    if 0xffff_ffff < place {
        return 0;
    }
    page::fill(part(image, number, size), place as u32, list)
}

// Writes the places on the first pages of a chain to the front of the list, as many as it takes.
fn fill_along(size: u32, first: u32, pages: u64, image: &[u8], list: &mut [u32])
    ensures { list.new ≡ written list.old (places_along size image.now pages first) }
{
    let mut page = first;
    let mut at: usize = 0;
    for _ in 0..pages {
        let found = fill_page(size, page, image, &mut list[at..]);
        if list.len() - at < found {
            return;
        }
        at += found;
        page = page::next(part(image, page, size));
    }
}

// Writes the places of the rows on the first pages of a table's chain to the front of the list, as many as it takes. The
// pages are those that a walk has counted: they are not checked again.
pub fn fill(directory: Directory, table: Table, pages: u64, image: &[u8], list: &mut [u32])
    ensures { list.new ≡ written list.old (chain_places image.now pages (chain_in directory table)) }
{
    if let Ok(chain) = directory.chain(table) {
        fill_along(chain.len_page, chain.first_page, pages, image, list);
    }
}

// Row k on the first pages of a chain, or how many rows they have.
fn row_along(size: u32, first: u32, pages: u64, image: &[u8], k: usize) -> Result<Row, usize>
    ensures { row_at_of result ≡ nth no_row (rows_first size image.now pages first) k 0 }
{
    let mut page = first;
    let mut found: usize = 0;
    for _ in 0..pages {
        let bytes = part(image, page, size);
        match page::row_at(bytes, page, k - found) {
            Ok(row) => return Ok(row),
            Err(rows) => found += rows,
        }
        page = page::next(bytes);
    }
    Err(found)
}

// Row k on the first pages of a table's chain, which a walk has counted; or how many rows they have.
pub fn row(
    directory: Directory,
    table: Table,
    pages: u64,
    image: &[u8],
    k: usize,
) -> Result<Row, usize>
    ensures { row_at_of result ≡ nth no_row (chain_rows image.now pages (chain_in directory table)) k 0 }
{
    match directory.chain(table) {
        Ok(chain) => row_along(chain.len_page, chain.first_page, pages, image, k),
        Err(_) => Err(0),
    }
}
