// An ANLZ file: its header, an iterator over its sections in file order, and the first of them with a code.
#![tactic(auto)]

ghost use Rattle.std.specs.Prelude.{◌≡◌, ◌-◌, ◌≤◌, length, IfOk, Some};
ghost use Rattle.std.specs.Iterator.{at_most};
ghost use Rattle.anlz.specs.Fault.{AnlzNumberOf, anlz_refusal_text, anlz_answer_as, anlz_answer_of};
ghost use Rattle.anlz.specs.Header.{header_holds};
ghost use Rattle.anlz.specs.Section.{section_holds, tag_of};
ghost use Rattle.anlz.specs.Sections.{next_section, first_place, NextSection};
ghost use Rattle.anlz.specs.First.{first_section};

use std::error::Error;
use std::fmt;

// The code that an ANLZ file starts with.
const PMAI: u32 = 0x504d_4149;

// The bytes of a code and two lengths, with which a file and each section start.
const ENVELOPE: usize = 12;

// The refusals about an ANLZ file. None carries a value.
#[derive(Clone, Copy, Debug, PartialEq, Eq)]
pub enum AnlzRefusal {
    // What is asked for by its number is not there.
    Absent,
    FileHeader,
    BadSection,
    NoGrid,
    GridLength,
    BarPosition,
    CueList,
    Waveform,
}

// The number of a refusal.
impl From<AnlzRefusal> for u32 {
    ghost from_gives = { AnlzNumberOf };

    fn from(refusal: AnlzRefusal) -> Self {
        match refusal {
            AnlzRefusal::Absent => 18,
            AnlzRefusal::FileHeader => 20,
            AnlzRefusal::BadSection => 21,
            AnlzRefusal::NoGrid => 22,
            AnlzRefusal::GridLength => 23,
            AnlzRefusal::BarPosition => 24,
            AnlzRefusal::CueList => 26,
            AnlzRefusal::Waveform => 27,
        }
    }
}

impl fmt::Display for AnlzRefusal {
    ghost output = { λ refusal. Some (anlz_refusal_text refusal) };

    fn fmt<W: fmt::Write>(&self, f: &mut fmt::Formatter<W>) -> fmt::Result {
        write!(f, "refused {}", u32::from(*self))
    }
}

impl Error for AnlzRefusal {}

// A section: its code, and where it starts and ends in the file.
#[derive(Clone, Copy, Debug, PartialEq, Eq)]
pub struct Section {
    pub code: u32,
    pub place: usize,
    pub end: usize,
}

// Where in the file the next section is looked for.
#[derive(Clone, Copy, Debug, PartialEq, Eq)]
pub struct Cursor {
    pub place: usize,
}

// The sections of a file from a cursor on, in file order. A broken one is refused, and is the last.
#[derive(Drop)]
pub struct Sections<'a> {
    pub file: &'a [u8],
    pub cursor: Cursor,
    ghost inside: { cursor.place ≤ length file.now },
}

#[tactic(auto, unfolding(crate::specs::Header::header_holds))]
fn header_holds(file: &[u8]) -> bool
    ensures { result ≡ header_holds file.now }
{
    let len_header = number::u32_be_at(file, 0x04) as usize;
    let len_file = number::u32_be_at(file, 0x08) as usize;
    ENVELOPE <= file.len()
        && number::u32_be_at(file, 0x00) == PMAI
        && len_file == file.len()
        && ENVELOPE <= len_header
        && len_header <= len_file
}

#[tactic(auto, unfolding(crate::specs::Section::section_holds))]
fn section_holds(file: &[u8], place: usize) -> bool
    ensures { result ≡ section_holds file.now place }
{
    if file.len() < place {
        return false;
    }
    let left = file.len() - place;
    if left < ENVELOPE {
        return false;
    }
    let len_header = number::u32_be_at(file, place + 0x04) as usize;
    let len_tag = number::u32_be_at(file, place + 0x08) as usize;
    ENVELOPE <= len_header && len_header <= len_tag && len_tag <= left
}

impl Cursor {
    // Before the first section.
    #[tactic(auto, unfolding(crate::specs::Sections::first_place))]
    pub fn start(file: &[u8]) -> Result<Cursor, AnlzRefusal>
        ensures { anlz_answer_as (λ c. c.place) result ≡ first_place file.now }
    {
        if header_holds(file) {
            let place = number::u32_be_at(file, 0x04) as usize;
            Ok(Cursor { place })
        } else {
            Err(AnlzRefusal::FileHeader)
        }
    }

    // The section that starts here, if one is left.
    #[tactic(auto, unfolding(crate::specs::Sections::next_section, crate::specs::Section::section_holds))]
    pub fn step(self, file: &[u8]) -> Result<Option<Section>, AnlzRefusal>
        ensures { anlz_answer_of result ≡ next_section file.now self.place }
    {
        let place = self.place;
        if place == file.len() {
            return Ok(None);
        }
        if section_holds(file, place) {
            let code = number::u32_be_at(file, place);
            let end = place + (number::u32_be_at(file, place + 0x08) as usize);
            Ok(Some(Section { code, place, end }))
        } else {
            Err(AnlzRefusal::BadSection)
        }
    }
}

impl Section {
    // The section's bytes, as far as the file has them.
    pub fn bytes(self, file: &[u8]) -> &[u8]
        ensures { result.now ≡ tag_of file.now self }
    {
        lists::subslice(file, self.place, self.end)
    }
}

impl<'a> Sections<'a> {
    // All sections of a file.
    #[tactic(auto, unfolding(crate::specs::Sections::first_place, crate::specs::Header::header_holds))]
    pub fn of(file: &'a [u8]) -> Result<Sections<'a>, AnlzRefusal>
        ensures start { anlz_answer_as (λ s. s.cursor.place) result ≡ first_place file.now }
        ensures file { IfOk result (λ s. s.file.now ≡ file.now) }
    {
        let cursor = Cursor::start(file)?;
        Ok(Sections { file, cursor })
    }
}

impl<'a> Iterator for Sections<'a> {
    type Item = Result<Section, AnlzRefusal>;

    ghost next_gives = { λ s r t. NextSection s.file.now s.cursor.place r t.file.now t.cursor.place };

    ghost remaining = { λ s. at_most (length s.file.now - s.cursor.place) };

    #[tactic(auto, unfolding(crate::specs::Sections::next_section, crate::specs::Section::section_holds))]
    fn next(&mut self) -> Option<Result<Section, AnlzRefusal>> {
        match self.cursor.step(self.file) {
            Ok(None) => None,
            Ok(Some(section)) => {
                self.cursor.place = section.end;
                Some(Ok(section))
            }
            Err(refusal) => {
                self.cursor.place = self.file.len();
                Some(Err(refusal))
            }
        }
    }
}

// The first section of a file that has a code, if there is one. Every section is judged, also behind that one.
pub fn first_section(file: &[u8], code: u32) -> Result<Option<Section>, AnlzRefusal>
    ensures { anlz_answer_of result ≡ first_section file.now code }
{
    let mut first = None;
    for next in Sections::of(file)? {
        let section = next?;
        first = first.or((section.code == code).then_some(section));
    }
    Ok(first)
}
