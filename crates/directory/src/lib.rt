// The file header and its directory of table pointers. All of it stands in block 0.
#![tactic(auto)]

ghost use Rattle.std.specs.Prelude.{◌≡◌, true, ◌≤◌, take};
ghost use Rattle.directory.specs.Header.{type, allowed_page, allowed_tables, has_type, type_twice, tables_hold, header_holds};
ghost use Rattle.directory.specs.Directory.{pointer_in, kept, file_directory, no_directory, read_header};
ghost use Rattle.directory.specs.Chain.{pointer_among, linked_chain, chain_in};
ghost use Rattle.directory.specs.Private.{TypesIn, with_type};
ghost use Rattle.refusal.specs.Answer.{answer_of};

use format::{Block, Page};
use refusal::Refusal;
use table::Table;

// A table's pointer, under the published names.
#[derive(Clone, Copy, Debug, Default, PartialEq, Eq)]
pub struct Pointer {
    pub table_type: u32,
    pub empty_candidate: u32,
    pub first_page: u32,
    pub last_page: u32,
}

// The directory of a file: its page length, its number of pages, and its pointers, of which the first count are in use.
#[derive(Clone, Copy, Debug, PartialEq, Eq)]
pub struct Directory {
    pub len_page: u32,
    pub page_count: u64,
    pub count: u32,
    pub pointers: [Pointer; 30],
}

// The chain of a table: page length and number of pages of the file, and the table's first and last page.
#[derive(Clone, Copy, Debug, PartialEq, Eq)]
pub struct Chain {
    pub len_page: u32,
    pub page_count: u64,
    pub first_page: u32,
    pub last_page: u32,
}

fn type_at(block: &[u8], i: u32) -> u32
    ensures { result ≡ type block.now i }
{
    number::u32_at(block, 0x1c + 16 * (i as usize))
}

fn pointer_at(block: &[u8], i: u32) -> Pointer
    ensures { result ≡ pointer_in block.now i }
{
    let at = 0x1c + 16 * (i as usize);
    Pointer {
        table_type: number::u32_at(block, at),
        empty_candidate: number::u32_at(block, at + 0x04),
        first_page: number::u32_at(block, at + 0x08),
        last_page: number::u32_at(block, at + 0x0c),
    }
}

fn allowed_page(len: u64, size: u32) -> bool
    ensures { result ≡ allowed_page len size }
{
    let block = Block::SIZE as u32;
    block <= size && size <= 32_768 && size % block == 0 && len % (size as u64) == 0
}

fn allowed_tables(n: u32) -> bool
    ensures { result ≡ allowed_tables n }
{
    1 <= n && n <= 30
}

// Whether one of the first n pointers has this type.
fn has_type(block: &[u8], n: u32, t: u32) -> bool
    ensures { result ≡ has_type block.now n t }
{
    (0..n).any(|i| type_at(block, i) == t)
}

// The word with the bit of type t set; only a type below 64 has one.
fn with_type(word: u64, t: u32) -> u64
    ensures { result ≡ with_type word t }
{
    if t < 64 { word | (1u64 << t) } else { word }
}

// Whether one of the first n pointers has type t, where the word has a bit for each of their types below 64.
fn has_type_in(block: &[u8], n: u32, word: u64, t: u32) -> bool
    requires { TypesIn block.now n word }
    ensures { result ≡ has_type block.now n t }
{
    if t < 64 {
        (word >> t) % 2 == 1
    } else {
        has_type(block, n, t)
    }
}

// Whether two of the first n pointers have one type.
fn has_type_twice(block: &[u8], n: u32) -> bool
    ensures { result ≡ type_twice block.now n }
{
    let mut seen: u64 = 0;
    for i in 0..n {
        let t = type_at(block, i);
        if has_type_in(block, i, seen, t) {
            return true;
        }
        seen = with_type(seen, t);
    }
    false
}

fn tables_hold(block: &[u8], n: u32) -> bool
    ensures { result ≡ tables_hold block.now n }
{
    allowed_tables(n) && !has_type_twice(block, n)
}

// Whether none of the rules for 9 is broken, in a file of len bytes with this block 0.
pub fn header_holds(block: &[u8], len: u64) -> bool
    ensures { result ≡ header_holds len block.now }
{
    number::u32_at(block, 0x00) == 0
        && allowed_page(len, number::u32_at(block, 0x04))
        && tables_hold(block, number::u32_at(block, 0x08))
}

// The first n pointers, in an array of 30.
fn keep(block: &[u8], n: u32) -> [Pointer; 30]
    requires { n ≤ 30 }
    ensures { result ≡ kept block.now n }
{
    let mut all = [Pointer::default(); 30];
    for i in 0..n {
        all[i as usize] = pointer_at(block, i);
    }
    all
}

// The directory of a header that holds.
fn directory_of(block: &[u8], len: u64) -> Directory
    requires { header_holds len block.now ≡ true }
    ensures { result ≡ file_directory len block.now }
{
    let size = number::u32_at(block, 0x04);
    let n = number::u32_at(block, 0x08);
    Directory {
        len_page: size,
        page_count: len / (size as u64),
        count: n,
        pointers: keep(block, n),
    }
}

// The chain that a pointer names, where its links are inside the file.
fn linked_chain(d: Directory, p: Pointer) -> Result<Chain, Refusal>
    ensures { answer_of result ≡ linked_chain d p }
{
    if !Page::linkable(d.page_count, p.first_page) {
        return Err(Refusal::PageLink(0));
    }
    if !Page::linkable(d.page_count, p.last_page) {
        return Err(Refusal::PageLink(0));
    }
    Ok(Chain {
        len_page: d.len_page,
        page_count: d.page_count,
        first_page: p.first_page,
        last_page: p.last_page,
    })
}

impl Directory {
    // The directory of a file of len bytes, from its block 0; none where the header is broken.
    pub fn read(block: &[u8], len: u64) -> Option<Directory>
        ensures { result ≡ read_header len block.now }
    {
        if header_holds(block, len) {
            Some(directory_of(block, len))
        } else {
            None
        }
    }

    // A directory of zeros.
    pub fn none() -> Directory
        ensures { result ≡ no_directory }
    {
        Directory {
            len_page: 0,
            page_count: 0,
            count: 0,
            pointers: [Pointer::default(); 30],
        }
    }

    // The first of the pointers in use that has type t.
    fn find(&self, t: u32) -> Result<Pointer, Refusal>
        ensures { answer_of result ≡ pointer_among t (take self.now.count self.now.pointers) }
    {
        self.pointers
            .iter()
            .take(self.count as usize)
            .find(|pointer| pointer.table_type == t)
            .copied()
            .ok_or(Refusal::NoPointer)
    }

    // The chain of a table, whose first and last page are inside the file.
    pub fn chain(self, table: Table) -> Result<Chain, Refusal>
        ensures { answer_of result ≡ chain_in self table }
    {
        let pointer = self.find(u32::from(table))?;
        linked_chain(self, pointer)
    }
}
