// The sizes of a block, a page and a row group, and where a page stands in the image.
#![tactic(auto)]

ghost use Rattle.std.specs.Prelude.{◌≡◌};
ghost use Rattle.format.specs.Place.{page_bounds, linkable};

// A block of the file, named by its number.
#[derive(Clone, Copy, Debug, PartialEq, Eq)]
pub struct Block {
    pub number: u64,
}

impl Block {
    // Bytes in a block.
    pub const SIZE: usize = 512;
}

// Where a page stands in the image: its bytes are those from start up to end.
#[derive(Clone, Copy, Debug, PartialEq, Eq)]
pub struct Page {
    pub number: u32,
    pub start: usize,
    pub end: usize,
}

impl Page {
    // Where a page's rows start, after its header.
    pub const HEAP: usize = 0x28;

    pub fn new(number: u32, size: u32) -> Self
        ensures { result ≡ page_bounds number size }
    {
        let start = (number as usize) * (size as usize);
        Page {
            number,
            start,
            end: start + (size as usize),
        }
    }

    // Whether a link may name the page in a file of so many pages.
    #[tactic(auto, unfolding(crate::specs::Place::linkable))]
    pub fn linkable(page_count: u64, page: u32) -> bool
        ensures { result ≡ linkable page_count page }
    {
        (1..page_count).contains(&u64::from(page))
    }
}

// A group of up to 16 entries of a page's row index.
#[derive(Clone, Copy, Debug, PartialEq, Eq)]
pub struct RowGroup {
    pub number: usize,
}

impl RowGroup {
    // Bytes that a full group takes.
    pub const SIZE: usize = 0x24;
}
