// The row that an element of a list of places names, read from one page.
#![tactic(auto)]

ghost use Rattle.std.specs.Prelude.{◌≡◌, ◌%◌, ◌/◌, ◌<◌, ◌≤◌, min, length, eqb};
ghost use Rattle.listed.specs.Rank.{run_before};
ghost use Rattle.listed.specs.Listed.{listed_row, listed_of};

use chain::Reply;
use format::Page;
use intake::Memory;
use page::Row;
use refusal::Refusal;
use table::Table;

// Whether a place lies on the page that starts at a byte.
fn lies_on(place: u32, first: u32, size: u32) -> bool
    requires { (0 < size) × (first % size ≡ 0) }
    ensures { result ≡ eqb (place / size) (first / size) }
{
    if place < first {
        return false;
    }
    place - first < size
}

// How many of the places directly before element i lie on the page that starts at a byte. Not more are counted than the
// page has bytes: no row has a higher rank.
fn run_before(list: &[u32], i: usize, first: u32, size: u32) -> usize
    requires { (i ≤ length list.now) × ((0 < size) × (first % size ≡ 0)) }
    ensures { result ≡ min size (run_before size list.now (first / size) i) }
{
    list[..i]
        .iter()
        .rev()
        .take_while(|place| lies_on(**place, first, size))
        .take(size as usize)
        .count()
}

// The row that element i of a list names, in a file of page_count pages of size bytes, or Waiting for its page. Of the image
// one page is read.
pub fn find(
    size: u32,
    page_count: u64,
    table: Table,
    memory: Memory,
    list: &[u32],
    i: usize,
) -> Result<Reply<Row>, Refusal>
    ensures { listed_of result ≡ listed_row size page_count table memory.entry.image.now memory.entry.map.now list.now i }
{
    if list.len() <= i {
        return Err(Refusal::NoRow);
    }
    if size == 0 {
        return Err(Refusal::NoRow);
    }
    let place = list[i];
    let page = place / size;
    if !Page::linkable(page_count, page) {
        return Err(Refusal::NoRow);
    }
    if !chain::is_held(size, page, memory.map) {
        return Ok(Reply::waiting(page));
    }
    let rank = run_before(list, i, place - place % size, size);
    let bytes = chain::part(memory.image, page, size);
    let row = page::read_row(bytes, page, table, place % size, rank)?;
    Ok(Reply::Found(row))
}
