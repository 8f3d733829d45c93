// The waveforms of an ANLZ file: one entry, by its place and its width.
#![tactic(auto)]

ghost use Rattle.std.specs.Prelude.{◌≡◌};
ghost use Rattle.refusal.specs.Answer.{refused};
ghost use Rattle.anlz.specs.Fault.{anlz_fault, anlz_answer_of};
ghost use Rattle.waveform.specs.Sort.{wave_code};
ghost use Rattle.waveform.specs.Wave.{wave_width, count_holds, wave_holds, entry_in};
ghost use Rattle.waveform.specs.Questions.{WaveOf, ask_wave};
ghost use Rattle.waveform.specs.Private.{ask_known, ask_absent};

use anlz::{AnlzRefusal, Section};
use entries::Entries;

// The codes of the sections that hold waveforms.
const PWV3: u32 = 0x5057_5633;

const PWV4: u32 = 0x5057_5634;

const PWV5: u32 = 0x5057_5635;

// The sorts of waveform that can be asked for.
#[derive(Clone, Copy, Debug, PartialEq, Eq)]
pub enum Wave {
    Detail,
    ColorPreview,
    ColorDetail,
}

// An entry: where it starts in the file, and how many bytes it has.
#[derive(Clone, Copy, Debug, PartialEq, Eq)]
pub struct WaveEntry {
    pub place: usize,
    pub width: u32,
}

// The sort of a number.
impl TryFrom<u64> for Wave {
    type Error = AnlzRefusal;

    ghost try_from_gives = { WaveOf };

    #[tactic(auto, unfolding(crate::specs::Sort::sort_of))]
    fn try_from(number: u64) -> Result<Self, AnlzRefusal> {
        match number {
            3 => Ok(Wave::Detail),
            4 => Ok(Wave::ColorPreview),
            5 => Ok(Wave::ColorDetail),
            _ => Err(AnlzRefusal::Absent),
        }
    }
}

impl Wave {
    // How many entries a color preview has.
    const PREVIEW_ENTRIES: u32 = 1200;

    // The code of its section.
    fn code(self) -> u32
        ensures { result ≡ wave_code self }
    {
        match self {
            Wave::Detail => PWV3,
            Wave::ColorPreview => PWV4,
            Wave::ColorDetail => PWV5,
        }
    }

    // Bytes of an entry.
    fn width(self) -> u32
        ensures { result ≡ wave_width self }
    {
        match self {
            Wave::Detail => 1,
            Wave::ColorPreview => 6,
            Wave::ColorDetail => 2,
        }
    }

    // Whether it can have so many entries.
    fn count_holds(self, count: u32) -> bool
        ensures { result ≡ count_holds self count }
    {
        match self {
            Wave::Detail => true,
            Wave::ColorPreview => count == Wave::PREVIEW_ENTRIES,
            Wave::ColorDetail => true,
        }
    }

    // Whether the width and the number of the entries are right, and they fill the section.
    #[tactic(auto, unfolding(crate::specs::Wave::wave_holds))]
    fn holds(self, tag: &[u8]) -> bool
        ensures { result ≡ wave_holds self tag.now }
    {
        let entries = Entries {
            tag,
            width: self.width(),
            count: number::u32_be_at(tag, 0x10),
        };
        number::u32_be_at(tag, 0x0c) == entries.width
            && self.count_holds(entries.count)
            && entries.fill()
    }

    // Entry k of this section.
    #[tactic(auto, unfolding(crate::specs::Wave::entry_in))]
    fn entry_in(self, file: &[u8], section: Section, k: u64) -> Result<WaveEntry, AnlzRefusal>
        ensures { anlz_answer_of result ≡ entry_in self file.now section k }
    {
        let tag = section.bytes(file);
        if !self.holds(tag) {
            return Err(AnlzRefusal::Waveform);
        }
        let entries = Entries {
            tag,
            width: self.width(),
            count: number::u32_be_at(tag, 0x10),
        };
        if (entries.count as u64) <= k {
            return Err(AnlzRefusal::Absent);
        }
        let place = section.place + entries.start_of(k as u32);
        Ok(WaveEntry {
            place,
            width: entries.width,
        })
    }

    // Entry k of the first section of this sort.
    fn entry(self, file: &[u8], k: u64) -> Result<WaveEntry, AnlzRefusal>
        ensures { anlz_answer_of result ≡ ask_known self file.now k }
    {
        let first = anlz::first_section(file, self.code())?;
        let section = first.ok_or(AnlzRefusal::Absent)?;
        self.entry_in(file, section, k)
    }
}

// The refusal where the sort is absent. The sections are judged first, whatever the code is.
fn absent_sort(file: &[u8]) -> AnlzRefusal
    ensures { refused (anlz_fault result) ≡ ask_absent file.now }
{
    match anlz::first_section(file, PWV3) {
        Ok(_) => AnlzRefusal::Absent,
        Err(refusal) => refusal,
    }
}

// Entry k of the waveform of a sort, from 0, by its place in the file.
pub fn entry(file: &[u8], sort: u64, k: u64) -> Result<WaveEntry, AnlzRefusal>
    ensures { anlz_answer_of result ≡ ask_wave file.now sort k }
{
    match Wave::try_from(sort) {
        Ok(wave) => wave.entry(file, k),
        Err(_) => Err(absent_sort(file)),
    }
}
