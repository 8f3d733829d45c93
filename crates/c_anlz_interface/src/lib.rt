// The C interface of ANLZ files, over numbers and slices: beats, cues and waveforms. Each function makes one call of the library and
// replies to its answer (crate c_anlz).
#![tactic(auto)]

ghost use Rattle.beat_grid.specs.Questions.{ask_beats, ask_beat};
ghost use Rattle.cue_list.specs.Questions.{ask_cue};
ghost use Rattle.waveform.specs.Questions.{ask_wave};
ghost use Rattle.c_reply.specs.Reply.{reply_to, Replied};
ghost use Rattle.c_anlz.specs.Replies.{beats_reply, beat_reply, cue_reply, wave_reply};

// Asks for the number of beats in the grid of an ANLZ file.
#[unsafe(no_mangle)]
pub extern "C" fn sarvoltig_beats(file: &[u8], res: &mut [u64]) -> u32
    ensures { Replied (reply_to beats_reply (ask_beats file.now)) result res.old res.new }
{
    c_anlz::reply(beat_grid::beats(file), res)
}

// Asks for beat k in the grid of an ANLZ file.
#[unsafe(no_mangle)]
pub extern "C" fn sarvoltig_beat(file: &[u8], k: u64, res: &mut [u64]) -> u32
    ensures { Replied (reply_to beat_reply (ask_beat file.now k)) result res.old res.new }
{
    c_anlz::reply(beat_grid::beat(file, k), res)
}

// Asks for cue k of an ANLZ file, counted through all its cue lists.
#[unsafe(no_mangle)]
pub extern "C" fn sarvoltig_cue(file: &[u8], k: u64, res: &mut [u64]) -> u32
    ensures { Replied (reply_to cue_reply (ask_cue file.now k)) result res.old res.new }
{
    c_anlz::reply(cue_list::cue_at(file, k), res)
}

// Asks for entry k of the waveform of a sort in an ANLZ file.
#[unsafe(no_mangle)]
pub extern "C" fn sarvoltig_wave(file: &[u8], sort: u64, k: u64, res: &mut [u64]) -> u32
    ensures { Replied (reply_to wave_reply (ask_wave file.now sort k)) result res.old res.new }
{
    c_anlz::reply(waveform::entry(file, sort, k), res)
}
