// Rows: their layout by table, a row's check, its record and its strings.
// A row is its own part of the page: from the row's start to where the row index begins.
#![tactic(auto)]

ghost use Rattle.std.specs.Prelude.{◌≡◌, ◌+◌, ◌*◌};
ghost use Rattle.number.specs.Number.{le16};
ghost use Rattle.text.specs.Text.{text_of};
ghost use Rattle.row.specs.Layout.{layout_with, row_layout, artist_layout, slots_in};
ghost use Rattle.row.specs.Check.{check_texts, check_row, check_of};
ghost use Rattle.row.specs.Record.{track_numbers, read_record, track_of, record_of};
ghost use Rattle.row.specs.Slot.{text_in_slot, slot_text};

use table::Table;
use text::Text;

// Where the offsets of a row's strings stand.
#[derive(Clone, Copy, Debug, PartialEq, Eq)]
pub enum Slots {
    Nothing,
    // One string, at this place of the row.
    Inline(u8),
    // One string, whose offset is the byte at this place.
    ByteOffset(u8),
    // So many strings, whose offsets are two bytes each, from this place on.
    WordOffsets(u8, u8),
}

// A row's fixed part in bytes and its strings.
#[derive(Clone, Copy, Debug, PartialEq, Eq)]
pub struct Layout {
    pub fixed: usize,
    pub slots: Slots,
}

// What the check of a row refuses.
#[derive(Clone, Copy, Debug, PartialEq, Eq)]
pub enum RowError {
    // The fixed part does not fit, or the artist subtype is unknown: 14.
    Row,
    // A string is malformed or outside: 15.
    Text,
}

// The numbers of a track, under their published names.
#[derive(Clone, Copy, Debug, PartialEq, Eq)]
pub struct Track {
    pub sample_rate: u32,
    pub composer_id: u32,
    pub file_size: u32,
    pub artwork_id: u32,
    pub key_id: u32,
    pub original_artist_id: u32,
    pub label_id: u32,
    pub remixer_id: u32,
    pub bitrate: u32,
    pub track_number: u32,
    pub tempo: u32,
    pub genre_id: u32,
    pub album_id: u32,
    pub artist_id: u32,
    pub id: u32,
    pub disc_number: u16,
    pub play_count: u16,
    pub year: u16,
    pub sample_depth: u16,
    pub duration: u16,
    pub color_id: u8,
    pub rating: u8,
}

// A row's numbers, a case for each table.
#[derive(Clone, Copy, Debug, PartialEq, Eq)]
pub enum Record {
    Track(Track),
    Genre {
        id: u32,
    },
    Artist {
        id: u32,
    },
    Album {
        artist_id: u32,
        id: u32,
    },
    Label {
        id: u32,
    },
    Key {
        id: u32,
    },
    Color {
        id: u16,
    },
    PlaylistNode {
        parent_id: u32,
        sort_order: u32,
        id: u32,
        raw_is_folder: u32,
    },
    PlaylistEntry {
        entry_index: u32,
        track_id: u32,
        playlist_id: u32,
    },
    Artwork {
        id: u32,
    },
}

fn word_start(row: &[u8], at: u8, slot: u8) -> usize
    ensures { result ≡ le16 row.now (at + 2 * slot) }
{
    number::u16_at(row, (at as usize) + 2 * (slot as usize)) as usize
}

impl Slots {
    fn count(self) -> u8
        ensures { result ≡ slots_in self }
    {
        match self {
            Slots::Nothing => 0,
            Slots::Inline(_) => 1,
            Slots::ByteOffset(_) => 1,
            Slots::WordOffsets(count, _) => count,
        }
    }
}

impl Layout {
    fn new(fixed: usize, slots: Slots) -> Self
        ensures { result ≡ layout_with fixed slots }
    {
        Layout { fixed, slots }
    }
}

// The layout of an artist row, by its subtype; none of a row of fewer than 0a bytes or of an unknown subtype.
#[tactic(auto, using(lists::proofs::Choice::tests), unfolding(crate::specs::Layout::artist_layout))]
fn artist_layout(row: &[u8]) -> Option<Layout>
    ensures { result ≡ artist_layout row.now }
{
    if row.len() < 0x0a {
        return None;
    }
    let subtype = number::u16_at(row, 0x00);
    match subtype {
        0x0060 => Some(Layout::new(0x0a, Slots::ByteOffset(0x09))),
        0x0064 => Some(Layout::new(0x0c, Slots::WordOffsets(1, 0x0a))),
        _ => None,
    }
}

// The string of a slot. Every string is read here.
#[tactic(auto, using(lists::proofs::Choice::tests))]
fn text_in_slot(table: Table, row: &[u8], slots: Slots, slot: usize) -> Option<Text>
    ensures { text_of result ≡ text_in_slot table row.now slots slot }
{
    let count = slots.count() as usize;
    if count <= slot {
        return None;
    }
    match slots {
        Slots::Nothing => None,
        Slots::Inline(at) => text::read(table, slot, row, at as usize),
        Slots::ByteOffset(at) => {
            text::read(table, slot, row, number::byte_at(row, at as usize) as usize)
        }
        Slots::WordOffsets(_, at) => text::read(table, slot, row, word_start(row, at, slot as u8)),
    }
}

// Checks that the strings of a row are well-formed.
#[tactic(auto, using(crate::proofs::TextsLoop::begin, crate::proofs::TextsLoop::end, crate::proofs::TextsLoop::good, crate::proofs::TextsLoop::bad))]
fn check_texts(table: Table, row: &[u8], slots: Slots) -> Result<(), RowError>
    ensures { check_of result ≡ check_texts table row.now slots (slots_in slots) 0 }
{
    let count = slots.count() as usize;
    for slot in 0..count {
        text_in_slot(table, row, slots, slot).ok_or(RowError::Text)?;
    }
    Ok(())
}

fn track_record(row: &[u8]) -> Track
    ensures { track_of result ≡ track_numbers row.now }
{
    Track {
        sample_rate: number::u32_at(row, 0x08),
        composer_id: number::u32_at(row, 0x0c),
        file_size: number::u32_at(row, 0x10),
        artwork_id: number::u32_at(row, 0x1c),
        key_id: number::u32_at(row, 0x20),
        original_artist_id: number::u32_at(row, 0x24),
        label_id: number::u32_at(row, 0x28),
        remixer_id: number::u32_at(row, 0x2c),
        bitrate: number::u32_at(row, 0x30),
        track_number: number::u32_at(row, 0x34),
        tempo: number::u32_at(row, 0x38),
        genre_id: number::u32_at(row, 0x3c),
        album_id: number::u32_at(row, 0x40),
        artist_id: number::u32_at(row, 0x44),
        id: number::u32_at(row, 0x48),
        disc_number: number::u16_at(row, 0x4c),
        play_count: number::u16_at(row, 0x4e),
        year: number::u16_at(row, 0x50),
        sample_depth: number::u16_at(row, 0x52),
        duration: number::u16_at(row, 0x54),
        color_id: number::byte_at(row, 0x58),
        rating: number::byte_at(row, 0x59),
    }
}

fn album_record(row: &[u8]) -> Record
    ensures { record_of result ≡ read_record Table.Albums row.now }
{
    Record::Album {
        artist_id: number::u32_at(row, 0x08),
        id: number::u32_at(row, 0x0c),
    }
}

fn node_record(row: &[u8]) -> Record
    ensures { record_of result ≡ read_record Table.PlaylistTree row.now }
{
    Record::PlaylistNode {
        parent_id: number::u32_at(row, 0x00),
        sort_order: number::u32_at(row, 0x08),
        id: number::u32_at(row, 0x0c),
        raw_is_folder: number::u32_at(row, 0x10),
    }
}

fn entry_record(row: &[u8]) -> Record
    ensures { record_of result ≡ read_record Table.PlaylistEntries row.now }
{
    Record::PlaylistEntry {
        entry_index: number::u32_at(row, 0x00),
        track_id: number::u32_at(row, 0x04),
        playlist_id: number::u32_at(row, 0x08),
    }
}

// The layout of a table's row; none of an artist row of fewer than 0a bytes or of no known subtype.
fn row_layout(table: Table, row: &[u8]) -> Option<Layout>
    ensures { result ≡ row_layout table row.now }
{
    match table {
        Table::Tracks => Some(Layout::new(0x88, Slots::WordOffsets(21, 0x5e))),
        Table::Genres => Some(Layout::new(0x04, Slots::Inline(0x04))),
        Table::Artists => artist_layout(row),
        Table::Albums => Some(Layout::new(0x16, Slots::ByteOffset(0x15))),
        Table::Labels => Some(Layout::new(0x04, Slots::Inline(0x04))),
        Table::Keys => Some(Layout::new(0x08, Slots::Inline(0x08))),
        Table::Colors => Some(Layout::new(0x08, Slots::Inline(0x08))),
        Table::PlaylistTree => Some(Layout::new(0x14, Slots::Inline(0x14))),
        Table::PlaylistEntries => Some(Layout::new(0x0c, Slots::Nothing)),
        Table::Artwork => Some(Layout::new(0x04, Slots::Inline(0x04))),
    }
}

// Checks that a row's fixed part fits and that its strings are well-formed.
#[tactic(auto, using(lists::proofs::Choice::tests), unfolding(crate::specs::Check::check_row))]
pub fn check_row(table: Table, row: &[u8]) -> Result<(), RowError>
    ensures { check_of result ≡ check_row table row.now }
{
    let layout = row_layout(table, row).ok_or(RowError::Row)?;
    if row.len() < layout.fixed {
        return Err(RowError::Row);
    }
    check_texts(table, row, layout.slots)
}

// The string of a slot, its place counted from the row's start.
#[tactic(auto, unfolding(crate::specs::Slot::slot_text))]
pub fn slot_text(table: Table, row: &[u8], slot: usize) -> Option<Text>
    ensures { text_of result ≡ slot_text table row.now slot }
{
    let layout = row_layout(table, row)?;
    text_in_slot(table, row, layout.slots, slot)
}

// A row's numbers; bytes that the row does not have count as 0.
pub fn read_record(table: Table, row: &[u8]) -> Record
    ensures { record_of result ≡ read_record table row.now }
{
    match table {
        Table::Tracks => Record::Track(track_record(row)),
        Table::Genres => Record::Genre {
            id: number::u32_at(row, 0x00),
        },
        Table::Artists => Record::Artist {
            id: number::u32_at(row, 0x04),
        },
        Table::Albums => album_record(row),
        Table::Labels => Record::Label {
            id: number::u32_at(row, 0x00),
        },
        Table::Keys => Record::Key {
            id: number::u32_at(row, 0x00),
        },
        Table::Colors => Record::Color {
            id: number::u16_at(row, 0x05),
        },
        Table::PlaylistTree => node_record(row),
        Table::PlaylistEntries => entry_record(row),
        Table::Artwork => Record::Artwork {
            id: number::u32_at(row, 0x00),
        },
    }
}
