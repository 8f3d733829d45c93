// The cues of an ANLZ file: one cue, counted through all its cue lists.
#![tactic(auto)]

ghost use Rattle.std.specs.Prelude.{◌≡◌};
ghost use Rattle.anlz.specs.Fault.{anlz_answer_of};
ghost use Rattle.entries.specs.Entries.{entries};
ghost use Rattle.entries.specs.Every.{every_entry};
ghost use Rattle.cue_list.specs.Cue.{cue_holds, position_of, cue_of};
ghost use Rattle.cue_list.specs.CueList.{len_cues, list_type_of, list_holds};
ghost use Rattle.cue_list.specs.Questions.{ask_cue};
ghost use Rattle.cue_list.specs.Private.{passed, searched, searched_section, ended};

use anlz::{AnlzRefusal, Section, Sections};
use entries::Entries;

// The code of a section that holds a cue list.
const PCOB: u32 = 0x5043_4f42;

// The code that an entry of a cue list starts with.
const PCPT: u32 = 0x5043_5054;

// What the cues of a list are.
#[derive(Clone, Copy, Debug, PartialEq, Eq)]
pub enum CueListType {
    Memory,
    Hot,
}

// Where a cue stands in the track, in milliseconds.
#[derive(Clone, Copy, Debug, PartialEq, Eq)]
pub enum CuePosition {
    Point { time: u32 },
    Loop { time: u32, loop_time: u32 },
}

// A cue: the type of its list, its hot cue number, and where it stands.
#[derive(Clone, Copy, Debug, PartialEq, Eq)]
pub struct Cue {
    pub list: CueListType,
    pub hot_cue: u32,
    pub position: CuePosition,
}

// What is known of the cue asked for after some lists: how many cues are still to be passed over, the cue, or that a list is bad.
#[derive(Clone, Copy, Debug, PartialEq, Eq)]
enum Search {
    Left(u64),
    Found(Cue),
    BadList,
}

impl CueListType {
    // The type of the list in this section.
    #[tactic(auto, unfolding(crate::specs::CueList::list_type_of))]
    fn read(tag: &[u8]) -> CueListType
        ensures { result ≡ list_type_of tag.now }
    {
        if number::u32_be_at(tag, 0x0c) == 0 {
            CueListType::Memory
        } else {
            CueListType::Hot
        }
    }
}

impl CuePosition {
    // Where the cue of this entry stands.
    #[tactic(auto, unfolding(crate::specs::Cue::position_of))]
    fn read(entry: &[u8]) -> CuePosition
        ensures { result ≡ position_of entry.now }
    {
        let time = number::u32_be_at(entry, 0x20);
        let loop_time = number::u32_be_at(entry, 0x24);
        if number::byte_at(entry, 0x1c) == 1 {
            CuePosition::Point { time }
        } else {
            CuePosition::Loop { time, loop_time }
        }
    }
}

impl Cue {
    // Bytes of an entry.
    pub const SIZE: u32 = 0x38;

    // The cue of this entry in a list of this type.
    fn read(list: CueListType, entry: &[u8]) -> Cue
        ensures { result ≡ cue_of list entry.now }
    {
        let hot_cue = number::u32_be_at(entry, 0x0c);
        let position = CuePosition::read(entry);
        Cue {
            list,
            hot_cue,
            position,
        }
    }
}

#[tactic(auto, unfolding(crate::specs::Cue::cue_holds))]
fn cue_holds(entry: &[u8]) -> bool
    ensures { result ≡ cue_holds entry.now }
{
    let kind = number::byte_at(entry, 0x1c);
    number::u32_be_at(entry, 0x00) == PCPT
        && number::u32_be_at(entry, 0x08) == Cue::SIZE
        && matches!(kind, 1 | 2)
}

// The number of cues in this list.
fn len_cues(tag: &[u8]) -> u32
    ensures { result ≡ len_cues tag.now }
{
    number::u16_be_at(tag, 0x12) as u32
}

// Whether each of these entries is a cue.
fn cues_hold(cues: Entries) -> bool
    ensures { result ≡ every_entry cue_holds (entries cues.entry.width cues.entry.count cues.entry.tag.now) }
{
    (0..cues.count).all(|k| cue_holds(cues.entry(k)))
}

#[tactic(auto, unfolding(crate::specs::CueList::list_holds))]
fn list_holds(tag: &[u8]) -> bool
    ensures { result ≡ list_holds tag.now }
{
    let cues = Entries {
        tag,
        width: Cue::SIZE,
        count: len_cues(tag),
    };
    number::u32_be_at(tag, 0x0c) <= 1 && cues.fill() && cues_hold(cues)
}

// The search after one list more, a good one, where k cues are to be passed over.
fn pass(k: u64, tag: &[u8]) -> Search
    ensures { result ≡ passed k tag.now }
{
    let count = len_cues(tag);
    if (count as u64) <= k {
        return Search::Left(k - (count as u64));
    }
    let cues = Entries {
        tag,
        width: Cue::SIZE,
        count,
    };
    let list = CueListType::read(tag);
    Search::Found(Cue::read(list, cues.entry(k as u32)))
}

// The search after one list more.
#[tactic(auto, unfolding(crate::specs::Private::searched))]
fn search_list(search: Search, tag: &[u8]) -> Search
    ensures { result ≡ searched search tag.now }
{
    if !list_holds(tag) {
        return Search::BadList;
    }
    match search {
        Search::Left(k) => pass(k, tag),
        known => known,
    }
}

// The answer where no list is left.
fn end(search: Search) -> Result<Cue, AnlzRefusal>
    ensures { anlz_answer_of result ≡ ended search }
{
    match search {
        Search::Left(_) => Err(AnlzRefusal::Absent),
        Search::Found(cue) => Ok(cue),
        Search::BadList => Err(AnlzRefusal::CueList),
    }
}

// The search after one section more.
#[tactic(auto, unfolding(crate::specs::Private::searched_section))]
fn search_section(search: Search, file: &[u8], section: Section) -> Search
    ensures { result ≡ searched_section search file.now section }
{
    if section.code == PCOB {
        search_list(search, section.bytes(file))
    } else {
        search
    }
}

// Cue k of an ANLZ file, from 0, counted through all its cue lists. Every list is judged, also behind the one with cue k.
pub fn cue_at(file: &[u8], k: u64) -> Result<Cue, AnlzRefusal>
    ensures { anlz_answer_of result ≡ ask_cue file.now k }
{
    let mut search = Search::Left(k);
    for next in Sections::of(file)? {
        let section = next?;
        search = search_section(search, file, section);
    }
    end(search)
}
