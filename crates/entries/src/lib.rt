// Entries of one width in a section, from byte `18` on.
#![tactic(auto)]

ghost use Rattle.std.specs.Prelude.{◌≡◌};
ghost use Rattle.entries.specs.Entries.{entry_at, entry, fills};

// So many entries of one width in a section, whose bytes are called a tag.
#[derive(Clone, Copy, Debug)]
pub struct Entries<'a> {
    pub tag: &'a [u8],
    pub width: u32,
    pub count: u32,
}

impl<'a> Entries<'a> {
    // Where the first entry starts in the section.
    pub const START: usize = 0x18;

    // Where entry k starts in the section. The sum is exact for any width and number.
    #[tactic(auto, using(crate::proofs::Filled::product_most))]
    pub fn start_of(self, k: u32) -> usize
        ensures { result ≡ entry_at self.entry.width k }
    {
        Entries::START + (self.width as usize) * (k as usize)
    }

    // Whether they end where the section ends.
    #[tactic(auto, unfolding(crate::specs::Entries::fills))]
    pub fn fill(self) -> bool
        ensures { result ≡ fills self.entry.width self.entry.count self.entry.tag.now }
    {
        self.start_of(self.count) == self.tag.len()
    }

    // The bytes of entry k, as far as the section has them.
    pub fn entry(self, k: u32) -> &'a [u8]
        ensures { result.now ≡ entry self.entry.width self.entry.tag.now k }
    {
        let start = self.start_of(k);
        lists::subslice(self.tag, start, start + (self.width as usize))
    }
}
