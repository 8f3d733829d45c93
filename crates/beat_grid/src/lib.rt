// The beat grid of an ANLZ file: the number of beats, and one beat.
#![tactic(auto)]

ghost use Rattle.std.specs.Prelude.{◌≡◌};
ghost use Rattle.anlz.specs.Fault.{anlz_answer_of, anlz_answer_as};
ghost use Rattle.entries.specs.Entries.{entries};
ghost use Rattle.entries.specs.Every.{every_entry};
ghost use Rattle.beat_grid.specs.Beat.{beat_of, bar_holds, beat_holds};
ghost use Rattle.beat_grid.specs.Grid.{grid_in, grid};
ghost use Rattle.beat_grid.specs.Questions.{ask_beats, ask_beat};
ghost use Rattle.beat_grid.specs.Private.{beats_of};

use anlz::AnlzRefusal;
use entries::Entries;

// The code of the section that holds a beat grid.
const PQTZ: u32 = 0x5051_545a;

// A beat: its position in the bar, beats per minute times 100, and milliseconds.
#[derive(Clone, Copy, Debug, PartialEq, Eq)]
pub struct GridBeat {
    pub bar_position: u16,
    pub tempo: u16,
    pub time: u32,
}

impl GridBeat {
    // Bytes of a beat.
    pub const SIZE: u32 = 8;

    // The beat that these bytes are.
    pub fn read(entry: &[u8]) -> GridBeat
        ensures { result ≡ beat_of entry.now }
    {
        GridBeat {
            bar_position: number::u16_be_at(entry, 0x00),
            tempo: number::u16_be_at(entry, 0x02),
            time: number::u32_be_at(entry, 0x04),
        }
    }
}

#[tactic(auto, unfolding(crate::specs::Beat::bar_holds))]
fn bar_holds(bar_position: u16) -> bool
    ensures { result ≡ bar_holds bar_position }
{
    matches!(bar_position, 1..=4)
}

// Whether each of these beats has a bar position from 1 to 4.
fn bars_hold(beats: Entries) -> bool
    ensures { result ≡ every_entry beat_holds (entries beats.entry.width beats.entry.count beats.entry.tag.now) }
{
    (0..beats.count).all(|k| bar_holds(number::u16_be_at(beats.entry(k), 0x00)))
}

// The beats of this section.
#[tactic(auto, unfolding(crate::specs::Grid::grid_in))]
fn grid_in(tag: &[u8]) -> Result<Entries, AnlzRefusal>
    ensures { anlz_answer_as beats_of result ≡ grid_in tag.now }
{
    let count = number::u32_be_at(tag, 0x14);
    let beats = Entries {
        tag,
        width: GridBeat::SIZE,
        count,
    };
    if !beats.fill() {
        return Err(AnlzRefusal::GridLength);
    }
    if !bars_hold(beats) {
        return Err(AnlzRefusal::BarPosition);
    }
    Ok(beats)
}

// The beats in the grid of an ANLZ file, which is its first section PQTZ.
#[tactic(auto, unfolding(crate::specs::Grid::grid_section, crate::specs::Grid::grid))]
fn grid(file: &[u8]) -> Result<Entries, AnlzRefusal>
    ensures { anlz_answer_as beats_of result ≡ grid file.now }
{
    let first = anlz::first_section(file, PQTZ)?;
    let section = first.ok_or(AnlzRefusal::NoGrid)?;
    grid_in(section.bytes(file))
}

// The number of beats in the grid of an ANLZ file.
#[tactic(auto, using(entries::proofs::EntryElement::made_counted), unfolding(crate::specs::Questions::ask_beats))]
pub fn beats(file: &[u8]) -> Result<u32, AnlzRefusal>
    ensures { anlz_answer_of result ≡ ask_beats file.now }
{
    let beats = grid(file)?;
    Ok(beats.count)
}

// Beat k in the grid of an ANLZ file, from 0.
#[tactic(auto, using(entries::proofs::EntryElement::made_past, entries::proofs::EntryElement::made_inside), unfolding(crate::specs::Questions::ask_beat))]
pub fn beat(file: &[u8], k: u64) -> Result<GridBeat, AnlzRefusal>
    ensures { anlz_answer_of result ≡ ask_beat file.now k }
{
    let beats = grid(file)?;
    if (beats.count as u64) <= k {
        return Err(AnlzRefusal::Absent);
    }
    Ok(GridBeat::read(beats.entry(k as u32)))
}
