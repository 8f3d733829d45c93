// The replies of the C interface about an ANLZ file: for each answer its code and its values (crate c_reply).
#![tactic(auto)]

ghost use Rattle.std.specs.Prelude.{◌≡◌, [], ◌∷◌};
ghost use Rattle.anlz.specs.Fault.{anlz_number, anlz_answer_of};
ghost use Rattle.c_reply.specs.Reply.{Reply, reply, reply_to, Replied};
ghost use Rattle.c_anlz.specs.Replies.{beats_reply, beat_reply, list_number, cue_reply, wave_reply};

use anlz::AnlzRefusal;
use beat_grid::GridBeat;
use c_reply::Code;
use cue_list::{Cue, CueListType, CuePosition};
use waveform::WaveEntry;

// An answer about an ANLZ file that C is given as numbers.
pub trait Answer {
    ghost reply_of: { Self → Reply };

    // Writes its values to the front of the result, as many as it takes, and returns its code.
    fn put(self, res: &mut [u64]) -> u32
        ensures { Replied (reply_of self) result res.old res.new };
}

// The number of beats.
impl Answer for u32 {
    ghost reply_of = { beats_reply };

    fn put(self, res: &mut [u64]) -> u32 {
        c_reply::put(Code::DONE, &[self as u64], res)
    }
}

impl Answer for GridBeat {
    ghost reply_of = { beat_reply };

    fn put(self, res: &mut [u64]) -> u32 {
        c_reply::put(
            Code::DONE,
            &[
                self.bar_position as u64,
                self.tempo as u64,
                self.time as u64,
            ],
            res,
        )
    }
}

// The number of a list's type.
fn list_number(list: CueListType) -> u64
    ensures { result ≡ list_number list }
{
    match list {
        CueListType::Memory => 0,
        CueListType::Hot => 1,
    }
}

impl Answer for Cue {
    ghost reply_of = { cue_reply };

    fn put(self, res: &mut [u64]) -> u32 {
        let list = list_number(self.list);
        let hot_cue = self.hot_cue as u64;
        match self.position {
            CuePosition::Point { time } => c_reply::put(
                Code::DONE,
                &[list, hot_cue, 1, time as u64],
                res,
            ),
            CuePosition::Loop { time, loop_time } => c_reply::put(
                Code::DONE,
                &[list, hot_cue, 2, time as u64, loop_time as u64],
                res,
            ),
        }
    }
}

impl Answer for WaveEntry {
    ghost reply_of = { wave_reply };

    fn put(self, res: &mut [u64]) -> u32 {
        c_reply::put(Code::DONE, &[self.place as u64, self.width as u64], res)
    }
}

// The reply to a refusal: its number, and 0 for the value and the entry.
fn refuse(refusal: AnlzRefusal, res: &mut [u64]) -> u32
    ensures { Replied (reply (anlz_number refusal) (0 ∷ 0 ∷ [])) result res.old res.new }
{
    c_reply::put(u32::from(refusal), &[0, 0], res)
}

// The reply with an answer, or to a refusal.
pub fn reply<T: Answer>(answer: Result<T, AnlzRefusal>, res: &mut [u64]) -> u32
    ensures { Replied (reply_to T.reply_of (anlz_answer_of answer)) result res.old res.new }
{
    match answer {
        Ok(answer) => answer.put(res),
        Err(refusal) => refuse(refusal, res),
    }
}
