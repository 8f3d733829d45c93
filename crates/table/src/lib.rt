// The ten tables, by their type's number.
#![tactic(auto)]

ghost use Rattle.std.specs.Prelude.{◌≡◌};
ghost use Rattle.table.specs.Table.{NumberOf, TableOf, slot_count, holds_codes};

use refusal::Refusal;

#[derive(Clone, Copy, Debug, PartialEq, Eq)]
pub enum Table {
    Tracks,
    Genres,
    Artists,
    Albums,
    Labels,
    Keys,
    Colors,
    PlaylistTree,
    PlaylistEntries,
    Artwork,
}

// The table of a type's number.
impl TryFrom<u32> for Table {
    type Error = Refusal;

    ghost try_from_gives = { TableOf };

    fn try_from(number: u32) -> Result<Self, Refusal> {
        match number {
            0 => Ok(Table::Tracks),
            1 => Ok(Table::Genres),
            2 => Ok(Table::Artists),
            3 => Ok(Table::Albums),
            4 => Ok(Table::Labels),
            5 => Ok(Table::Keys),
            6 => Ok(Table::Colors),
            7 => Ok(Table::PlaylistTree),
            8 => Ok(Table::PlaylistEntries),
            13 => Ok(Table::Artwork),
            _ => Err(Refusal::TableType),
        }
    }
}

// The number of a table's type.
impl From<Table> for u32 {
    ghost from_gives = { NumberOf };

    fn from(table: Table) -> Self {
        match table {
            Table::Tracks => 0,
            Table::Genres => 1,
            Table::Artists => 2,
            Table::Albums => 3,
            Table::Labels => 4,
            Table::Keys => 5,
            Table::Colors => 6,
            Table::PlaylistTree => 7,
            Table::PlaylistEntries => 8,
            Table::Artwork => 13,
        }
    }
}

impl Table {
    // How many string slots the table's rows have.
    pub fn slots(self) -> usize
        ensures { result ≡ slot_count self }
    {
        match self {
            Table::Tracks => 21,
            Table::Genres => 1,
            Table::Artists => 1,
            Table::Albums => 1,
            Table::Labels => 1,
            Table::Keys => 1,
            Table::Colors => 1,
            Table::PlaylistTree => 1,
            Table::PlaylistEntries => 0,
            Table::Artwork => 1,
        }
    }

    // Whether a string slot may hold recording codes.
    pub fn holds_codes(self, slot: usize) -> bool
        ensures { result ≡ holds_codes self slot }
    {
        match self {
            Table::Tracks => slot == 0,
            Table::Genres => false,
            Table::Artists => false,
            Table::Albums => false,
            Table::Labels => false,
            Table::Keys => false,
            Table::Colors => false,
            Table::PlaylistTree => false,
            Table::PlaylistEntries => false,
            Table::Artwork => false,
        }
    }
}
