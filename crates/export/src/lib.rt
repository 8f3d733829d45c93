// The three questions: all rows of a table, record k of a table, and a string of record k; reading from the list of places
// that the first of them wrote; and what block 0 tells ahead of them.
#![tactic(auto)]

ghost use Rattle.std.specs.Prelude.{◌≡◌};
ghost use Rattle.std.specs.Fn.{FnOnceReturnsAt};
ghost use Rattle.lists.specs.Nth.{nth};
ghost use Rattle.refusal.specs.Answer.{answer_of, given};
ghost use Rattle.intake.specs.Memory.{memory_of, block_at};
ghost use Rattle.directory.specs.Chain.{chain_in};
ghost use Rattle.page.specs.Found.{no_row};
ghost use Rattle.chain.specs.Chain.{chain_rows};
ghost use Rattle.chain.specs.Found.{found, then_found, MapsFound, FollowsFound};
ghost use Rattle.listed.specs.Listed.{listed_row};
ghost use Rattle.table_walk.specs.Walk.{page_size, table_walk};
ghost use Rattle.export.specs.Rows.{settle_rows, ask_rows, rows_of};
ghost use Rattle.export.specs.Row.{settle_row, row_part};
ghost use Rattle.export.specs.Record.{ask_record, record_on_of, record_reply_of};
ghost use Rattle.export.specs.Text.{text_on, ask_text, text_reply_of};
ghost use Rattle.export.specs.FromList.{table_listed, ask_record_in, ask_text_in};
ghost use Rattle.export.specs.Layout.{layout_in, bounds_in, ask_layout, ask_bounds, layout_reply_of, bounds_reply_of};
ghost use Rattle.export.specs.Private.{OnceHeld, row_at, at_row, row_reply_of, record_in};

use chain::{Reply, Walked};
use directory::Directory;
use format::Page;
use intake::{Checked, Intake, Memory};
use page::Row;
use refusal::Refusal;
use row::Record;
use table::Table;
use text::Text;

// A row, and the size of its page.
#[derive(Clone, Copy, Debug, PartialEq, Eq)]
struct SizedRow {
    row: Row,
    size: u32,
}

// A record, with the page and the index entry of its row.
#[derive(Clone, Copy, Debug, PartialEq, Eq)]
pub struct RecordOn {
    pub page: u32,
    pub entry: u16,
    pub record: Record,
}

// Page length and number of pages of a file.
#[derive(Clone, Copy, Debug, PartialEq, Eq)]
pub struct FileLayout {
    pub len_page: u32,
    pub page_count: u64,
}

// First and last page of a table.
#[derive(Clone, Copy, Debug, PartialEq, Eq)]
pub struct TableBounds {
    pub first_page: u32,
    pub last_page: u32,
}

// What becomes of what was found.
fn map_found<T, U, F: FnOnce(T) -> U>(reply: Reply<T>, becomes: F) -> Reply<U>
    requires { F.IsAlwaysCallable becomes }
    ensures { MapsFound (F.post becomes) reply result }
{
    match reply {
        Reply::Found(found) => Reply::Found(becomes(found)),
        Reply::Waiting { page, rows, pages } => Reply::Waiting { page, rows, pages },
    }
}

// What follows where something was found.
fn and_then<T, U, F: FnOnce(T) -> Result<Reply<U>, Refusal>>(
    reply: Reply<T>,
    follows: F,
) -> Result<Reply<U>, Refusal>
    requires { F.IsAlwaysCallable follows }
    ensures { FollowsFound (F.post follows) reply result }
{
    match reply {
        Reply::Found(found) => follows(found),
        Reply::Waiting { page, rows, pages } => Ok(Reply::Waiting { page, rows, pages }),
    }
}

// What block 0 tells, once it is held.
fn once_held<T, F: FnOnce(&[u8]) -> Result<T, Refusal>>(
    memory: Memory,
    told: F,
) -> Result<Reply<T>, Refusal>
    requires { F.IsAlwaysCallable told }
    ensures { OnceHeld (memory_of memory.entry) (λ answer. FnOnceReturnsAt F.FnOnce told (block_at memory.entry.image.now 0) answer) result }
{
    if !bitmap::has_bit(memory.map, 0) {
        return Ok(Reply::waiting(0));
    }
    let answer = told(table_walk::first_block(memory.image))?;
    Ok(Reply::Found(answer))
}

// The layout of a file of len bytes, from its block 0.
fn layout_in(block: &[u8], len: u64) -> Result<FileLayout, Refusal>
    ensures { answer_of result ≡ layout_in len block.now }
{
    if !directory::header_holds(block, len) {
        return Err(Refusal::FileHeader);
    }
    let size = number::u32_at(block, 0x04);
    Ok(FileLayout {
        len_page: size,
        page_count: len / (size as u64),
    })
}

// First and last page of a table of a file of len bytes, from its block 0.
fn bounds_in(block: &[u8], len: u64, table: Table) -> Result<TableBounds, Refusal>
    ensures { answer_of result ≡ bounds_in len block.now table }
{
    let directory = Directory::read(block, len).ok_or(Refusal::FileHeader)?;
    let chain = directory.chain(table)?;
    Ok(TableBounds {
        first_page: chain.first_page,
        last_page: chain.last_page,
    })
}

// The answer to a question for all rows of a table, with the places written.
fn rows_of(file: Checked, table: Table, list: &mut [u32]) -> Result<Walked, Refusal>
    ensures { rows_of result list.new ≡
        settle_rows (page_size (memory_of file.entry.memory)) list.old
        (table_walk file.entry.intake.len (memory_of file.entry.memory) table) }
{
    let image = file.memory.image;
    let walk = table_walk::walk_table(file.intake.len, file.memory, table);
    let walked = walk.walked?;
    let rows = walked.rows();
    if list.len() < rows {
        return Err(Refusal::ListShort(rows));
    }
    chain::fill(walk.directory, table, walked.pages(), image, list);
    Ok(walked)
}

// All rows of a table: their places go to the front of the list, and the answer counts them and the pages walked.
pub fn rows(
    intake: Intake,
    memory: Memory,
    number: u32,
    list: &mut [u32],
) -> Result<Walked, Refusal>
    ensures { rows_of result list.new ≡
        ask_rows intake.len (memory_of memory.entry) number list.old }
{
    let table = table_walk::asked(intake, memory, number)?;
    let file = Checked { intake, memory };
    rows_of(file, table, list)
}

// The own part of a row: from its start to its page's row index.
fn row_part(size: u32, image: &[u8], row: Row) -> &[u8]
    ensures { result.now ≡ row_part size image.now row }
{
    let before = page::before_index(chain::part(image, row.page, size));
    lists::subslice(before, row.start as usize, before.len())
}

// Row k on the first pages of a table's chain, which a walk has counted.
fn row_at(
    directory: Directory,
    image: &[u8],
    table: Table,
    pages: u64,
    k: usize,
) -> Result<Reply<SizedRow>, Refusal>
    ensures { row_reply_of result ≡ at_row directory.len_page
        (nth no_row (chain_rows image.now pages (chain_in directory table)) k 0) }
{
    match chain::row(directory, table, pages, image, k) {
        Ok(row) => Ok(Reply::Found(SizedRow {
            row,
            size: directory.len_page,
        })),
        Err(_) => Err(Refusal::NoRow),
    }
}

// Row k of a table.
fn find_row(file: Checked, table: Table, k: usize) -> Result<Reply<SizedRow>, Refusal>
    ensures { row_reply_of result ≡ settle_row (row_at (page_size (memory_of file.entry.memory))) k
        (table_walk file.entry.intake.len (memory_of file.entry.memory) table) }
{
    let image = file.memory.image;
    let walk = table_walk::walk_table(file.intake.len, file.memory, table);
    match walk.walked? {
        walked if k < walked.rows() => row_at(walk.directory, image, table, walked.pages(), k),
        Walked::Full { .. } => Err(Refusal::NoRow),
        Walked::Waiting { page, rows, pages } => Ok(Reply::Waiting { page, rows, pages }),
    }
}

// The row that element i of a list names, in a file of this layout. One page is read.
fn find_element(
    file: FileLayout,
    memory: Memory,
    table: Table,
    list: &[u32],
    i: usize,
) -> Result<Reply<SizedRow>, Refusal>
    ensures { row_reply_of result ≡ then_found
        (listed_row file.len_page file.page_count table memory.entry.image.now memory.entry.map.now list.now i) (row_at file.len_page) }
{
    let size = file.len_page;
    let found = listed::find(size, file.page_count, table, memory, list, i)?;
    Ok(map_found(found, |row| SizedRow { row, size }))
}

// The row that element i of a list names. Of block 0 the header is read, and of the rest one page.
fn find_listed(
    len: u64,
    memory: Memory,
    table: Table,
    list: &[u32],
    i: usize,
) -> Result<Reply<SizedRow>, Refusal>
    ensures { row_reply_of result ≡ then_found
        (table_listed len (memory_of memory.entry) list.now i table)
        (row_at (page_size (memory_of memory.entry))) }
{
    let layout = once_held(memory, |block| layout_in(block, len))?;
    let Memory { image, map } = memory;
    and_then(
        layout,
        |file| find_element(file, Memory { image, map }, table, list, i),
    )
}

// The record of a row.
fn record_on(table: Table, image: &[u8], at: SizedRow) -> RecordOn
    ensures { given (found (record_on_of result)) ≡ record_in table image.now at }
{
    let SizedRow { row, size } = at;
    RecordOn {
        page: row.page,
        entry: row.entry,
        record: row::read_record(table, row_part(size, image, row)),
    }
}

// Record k of a table, from 0.
pub fn record(
    intake: Intake,
    memory: Memory,
    number: u32,
    k: usize,
) -> Result<Reply<RecordOn>, Refusal>
    ensures { record_reply_of result ≡ ask_record intake.len (memory_of memory.entry) number k }
{
    let table = table_walk::asked(intake, memory, number)?;
    let file = Checked { intake, memory };
    Ok(map_found(
        find_row(file, table, k)?,
        |at| record_on(table, memory.image, at),
    ))
}

// The record of the row that element i of a list names. Of the table one page is read.
pub fn record_in(
    intake: Intake,
    memory: Memory,
    number: u32,
    list: &[u32],
    i: usize,
) -> Result<Reply<RecordOn>, Refusal>
    ensures { record_reply_of result ≡
        ask_record_in intake.len (memory_of memory.entry) number list.now i }
{
    let Intake { len } = intake;
    let table = table_walk::asked(intake, memory, number)?;
    Ok(map_found(
        find_listed(len, memory, table, list, i)?,
        |at| record_on(table, memory.image, at),
    ))
}

// The text of a slot of a row.
fn text_at(table: Table, image: &[u8], slot: usize, at: SizedRow) -> Result<Reply<Text>, Refusal>
    ensures { text_reply_of result ≡ text_on at.size image.now table slot at.row }
{
    let SizedRow { row, size } = at;
    match row::slot_text(table, row_part(size, image, row), slot) {
        Some(text) => Ok(Reply::Found(Text {
            place: Page::new(row.page, size).start + (row.start as usize) + text.place,
            ..text
        })),
        None => Err(Refusal::TextFault {
            page: row.page,
            entry: row.entry,
        }),
    }
}

// The text of a string slot of record k of a table; its place counts from the start of the file.
pub fn text(
    intake: Intake,
    memory: Memory,
    number: u32,
    k: usize,
    slot: usize,
) -> Result<Reply<Text>, Refusal>
    ensures { text_reply_of result ≡ ask_text intake.len (memory_of memory.entry) number k slot }
{
    let table = table_walk::asked_slot(intake, memory, number, slot)?;
    let file = Checked { intake, memory };
    and_then(
        find_row(file, table, k)?,
        |at| text_at(table, memory.image, slot, at),
    )
}

// The text of a string slot of the row that element i of a list names. Of the table one page is read.
pub fn text_in(
    intake: Intake,
    memory: Memory,
    number: u32,
    list: &[u32],
    i: usize,
    slot: usize,
) -> Result<Reply<Text>, Refusal>
    ensures { text_reply_of result ≡
        ask_text_in intake.len (memory_of memory.entry) number list.now i slot }
{
    let table = table_walk::asked_slot(intake, memory, number, slot)?;
    and_then(
        find_listed(intake.len, memory, table, list, i)?,
        |at| text_at(table, memory.image, slot, at),
    )
}

// Page length and number of pages of the file.
pub fn layout(intake: Intake, memory: Memory) -> Result<Reply<FileLayout>, Refusal>
    ensures { layout_reply_of result ≡ ask_layout intake.len (memory_of memory.entry) }
{
    intake::check(intake, memory)?;
    once_held(memory, |block| layout_in(block, intake.len))
}

// First and last page of a table.
pub fn bounds(intake: Intake, memory: Memory, number: u32) -> Result<Reply<TableBounds>, Refusal>
    ensures { bounds_reply_of result ≡ ask_bounds intake.len (memory_of memory.entry) number }
{
    let table = table_walk::asked(intake, memory, number)?;
    once_held(memory, |block| bounds_in(block, intake.len, table))
}
