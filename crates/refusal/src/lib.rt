// The refusals: each has a number, some carry a value, and two an index entry beside it.
#![tactic(auto)]

ghost use Rattle.std.specs.Prelude.{◌≡◌, Some};
ghost use Rattle.refusal.specs.Fault.{fault, fault_at, refusal_text, FaultOf};

use std::error::Error;
use std::fmt;

// A refusal's number and what it carries, a value and an index entry, 0 where it carries nothing.
#[derive(Clone, Copy, Debug, PartialEq, Eq)]
pub struct Fault {
    pub number: u32,
    pub value: u64,
    pub entry: u16,
}

// The refusals, in the order of their numbers, with what each carries.
#[derive(Clone, Copy, Debug, PartialEq, Eq)]
pub enum Refusal {
    Length,
    ImageShort,
    MapShort,
    MapSpare,
    BlockNumber,
    PieceSize,
    BlockDiffers,
    TableType,
    FileHeader,
    NoPointer,
    // The page that holds the link, 0 for the directory.
    PageLink(u32),
    PageNumber(u32),
    RowIndex(u32),
    RowShort { page: u32, entry: u16 },
    TextFault { page: u32, entry: u16 },
    ChainLoop,
    // The length that the list needs: the rows found, or the blocks of a packet.
    ListShort(usize),
    NoRow,
    NoSlot,
    PageType(u32),
}

// A refusal that carries no index entry.
fn numbered(number: u32, value: u64) -> Fault
    ensures { result ≡ fault number value }
{
    Fault {
        number,
        value,
        entry: 0,
    }
}

// A refusal that carries a page and an entry of its row index.
fn at_entry(number: u32, page: u32, entry: u16) -> Fault
    ensures { result ≡ fault_at number page «entry» }
{
    Fault {
        number,
        value: page as u64,
        entry,
    }
}

// The number of a refusal and what it carries.
impl From<Refusal> for Fault {
    ghost from_gives = { FaultOf };

    fn from(refusal: Refusal) -> Self {
        match refusal {
            Refusal::Length => numbered(1, 0),
            Refusal::ImageShort => numbered(2, 0),
            Refusal::MapShort => numbered(3, 0),
            Refusal::MapSpare => numbered(4, 0),
            Refusal::BlockNumber => numbered(5, 0),
            Refusal::PieceSize => numbered(6, 0),
            Refusal::BlockDiffers => numbered(7, 0),
            Refusal::TableType => numbered(8, 0),
            Refusal::FileHeader => numbered(9, 0),
            Refusal::NoPointer => numbered(10, 0),
            Refusal::PageLink(page) => numbered(11, page as u64),
            Refusal::PageNumber(page) => numbered(12, page as u64),
            Refusal::RowIndex(page) => numbered(13, page as u64),
            Refusal::RowShort { page, entry } => at_entry(14, page, entry),
            Refusal::TextFault { page, entry } => at_entry(15, page, entry),
            Refusal::ChainLoop => numbered(16, 0),
            Refusal::ListShort(needed) => numbered(17, needed as u64),
            Refusal::NoRow => numbered(18, 0),
            Refusal::NoSlot => numbered(19, 0),
            Refusal::PageType(page) => numbered(25, page as u64),
        }
    }
}

impl fmt::Display for Refusal {
    ghost output = { λ refusal. Some (refusal_text refusal) };

    fn fmt<W: fmt::Write>(&self, f: &mut fmt::Formatter<W>) -> fmt::Result {
        write!(f, "refused {}", Fault::from(*self).number)
    }
}

impl Error for Refusal {}
