// Runs cases of rules 9.1 to 9.4, 9.17 and 9.19 and writes a line for each: C1 to C3 and a file of 32,768 bytes, a page of no
// entries, C5 and C6, row counts, entries of faults, wrong halves of a header, C9 to C12, and the other two strings. C4 is a
// theorem alone.
#![tactic(auto)]

use refusal::{Fault, Refusal};
use row::RowError;
use std::io;
use table::Table;
use text::Text;

fn openings(rt: &impl Print) -> io::Result<()> {
    let image = [0u8; 32768];
    let mut map = [0u64; 1];
    for len in [0, 512, 268_435_968, 32_768] {
        match intake::open(len, &image, &mut map) {
            Ok(opened) => println!(rt; "open {}", opened.blocks)?,
            Err(refusal) => println!(rt; "{refusal}")?,
        }
    }
    Ok(())
}

// What reading the page answers, as a page of this number and table.
fn say_read(rt: &impl Print, page: &[u8], number: u32, table: Table) -> io::Result<()> {
    match page::read(page, number, table) {
        Ok(rows) => println!(rt; "rows {rows}"),
        Err(refusal) => println!(rt; "{refusal}"),
    }
}

// The entry that the refusal of the page carries, 0 where it is read.
fn fault_entry(page: &[u8]) -> u64 {
    match page::read(page, 1, Table::Genres) {
        Ok(_) => 0,
        Err(refusal) => u64::from(Fault::from(refusal).entry),
    }
}

// Page 1 of a table of genres, which each case takes as the one before left it.
#[derive(Drop)]
struct Page {
    bytes: [u8; 512],
}

impl Page {
    fn set_header(&mut self, counts: u32) {
        self.bytes[0x04] = 1;
        self.bytes[0x08] = 1;
        self.bytes[0x18..0x1b].copy_from_slice(&counts.to_le_bytes()[..3]);
    }

    // Sets the flags of entries 0 to 31, whose rows all stand at 28, and the first byte of their names.
    fn set_rows(&mut self, name: u8) {
        self.bytes[0x2c] = name;
        self.bytes[508..510].fill(0xff);
        self.bytes[472..474].fill(0xff);
    }

    // Reads the page with these row counts.
    fn say(&mut self, rt: &impl Print, counts: u32) -> io::Result<()> {
        self.set_header(counts);
        say_read(rt, &self.bytes, 1, Table::Genres)
    }

    fn say_entry(&mut self, rt: &impl Print, counts: u32) -> io::Result<()> {
        self.say(rt, counts)?;
        println!(rt; "entry {}", fault_entry(&self.bytes))
    }

    fn without_rows(&mut self, rt: &impl Print) -> io::Result<()> {
        for counts in [0, 208, 209, 0x1fff] {
            self.say(rt, counts)?;
        }
        Ok(())
    }

    // 16 and 17 entries, all present, counted right; then 17 counted as one less, one more and all ones of both groups.
    fn counted(&mut self, rt: &impl Print) -> io::Result<()> {
        self.set_rows(0x03);
        for counts in [0x2_0010, 0x2_2011, 0x2_0011, 0x2_4011, 0x4_0011] {
            self.say(rt, counts)?;
        }
        Ok(())
    }

    // 17 entries where the rows' names are malformed, counted right and as one less.
    fn bad_names(&mut self, rt: &impl Print) -> io::Result<()> {
        self.set_rows(0x01);
        self.say(rt, 0x2_2011)?;
        self.say(rt, 0x2_0011)
    }

    // Malformed names where entry 1 of two is present, and entry 16 of 17.
    fn late_entries(&mut self, rt: &impl Print) -> io::Result<()> {
        self.bytes[508] = 0x02;
        self.bytes[509] = 0;
        self.say_entry(rt, 0x2002)?;
        self.bytes[508] = 0;
        self.bytes[472] = 0x01;
        self.bytes[473] = 0;
        self.say_entry(rt, 0x2011)
    }

    // The page read as another page, for another table, and as both.
    fn headers(&self, rt: &impl Print) -> io::Result<()> {
        say_read(rt, &self.bytes, 2, Table::Genres)?;
        say_read(rt, &self.bytes, 1, Table::Artists)?;
        say_read(rt, &self.bytes, 2, Table::Artists)
    }
}

fn say_text(rt: &impl Print, row: &[u8], text: Text) -> io::Result<()> {
    rt.print("text ")?;
    if let Some(bytes) = row.get(text.place..).and_then(|rest| rest.get(..text.len)) {
        rt.write_all(bytes)?;
    }
    rt.println("")
}

// A genre row: four bytes of id, then the string.
fn say_name(rt: &impl Print, row: &[u8]) -> io::Result<()> {
    let fault = Refusal::TextFault { page: 1, entry: 0 };
    match row::check_row(Table::Genres, row) {
        Ok(()) => match row::slot_text(Table::Genres, row, 0) {
            Some(text) => say_text(rt, row, text),
            None => println!(rt; "{fault}"),
        },
        Err(RowError::Row) => println!(rt; "{}", Refusal::RowShort { page: 1, entry: 0 }),
        Err(RowError::Text) => println!(rt; "{fault}"),
    }
}

fn names(rt: &impl Print) -> io::Result<()> {
    say_name(rt, &[7, 0, 0, 0, 0x03])?;
    say_name(rt, &[7, 0, 0, 0, 0x01])?;
    say_name(rt, &[7, 0, 0, 0, 0x09, 0x41, 0x42, 0x43])?;
    say_name(rt, &[7, 0, 0, 0, 0x90, 0x05, 0x00, 0x00, 0x41])
}

fn more_names(rt: &impl Print) -> io::Result<()> {
    say_name(rt, &[7, 0, 0, 0, 0x40, 0x06, 0x00, 0x00, 0x41, 0x42])?;
    say_name(rt, &[7, 0, 0, 0, 0x40, 0x03, 0x00, 0x00])
}

fn main(rt: HostRuntime) -> io::Result<()> {
    openings(&rt)?;
    let mut page = Page { bytes: [0; 512] };
    page.without_rows(&rt)?;
    page.counted(&rt)?;
    page.bad_names(&rt)?;
    page.late_entries(&rt)?;
    page.headers(&rt)?;
    names(&rt)?;
    more_names(&rt)
}
