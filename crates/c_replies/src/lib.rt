// The replies of the C interface about an export: for each answer of the library its code and its values (crate c_reply).
#![tactic(auto)]

ghost use Rattle.std.specs.Prelude.{◌≡◌, [], ◌∷◌, List, ℕ};
ghost use Rattle.refusal.specs.Fault.{fault_of};
ghost use Rattle.refusal.specs.Answer.{answer_of};
ghost use Rattle.row.specs.Record.{track_of, record_of};
ghost use Rattle.intake.specs.Open.{file_of};
ghost use Rattle.intake.specs.Deliver.{taken_of};
ghost use Rattle.intake.specs.Missing.{missing_of};
ghost use Rattle.chain.specs.Tally.{progress_of};
ghost use Rattle.chain.specs.Found.{reply_of};
ghost use Rattle.export.specs.Record.{record_on_of};
ghost use Rattle.export.specs.Text.{text_place_of};
ghost use Rattle.c_reply.specs.Code.{done};
ghost use Rattle.c_reply.specs.Reply.{Reply, reply, reply_to, Replied};
ghost use Rattle.c_replies.specs.Replies.{open_reply, deliver_reply, packet_reply, wait_reply, walk_reply, found_reply, record_values, encoding_number, text_values, layout_values, bounds_values, missing_reply};

use c_reply::Code;
use chain::{Reply, Walked};
use export::{FileLayout, RecordOn, TableBounds};
use intake::{Delivered, Opened};
use refusal::{Fault, Refusal};
use row::{Record, Track};
use text::{Encoding, Text};

// An answer of the library that is not refused, and its reply.
pub trait Answer {
    ghost says: { Self → Reply };

    // Writes the reply's values to the front of the result, as many as it takes, and returns its code.
    fn put(self, res: &mut [u64]) -> u32
        ensures { Replied (says self) result res.old res.new };
}

// What a question finds, and its values.
pub trait Values {
    ghost values: { Self → List ℕ };

    // Writes the values to the front of the result, as many as it takes, and returns the code of what was found.
    fn put_values(self, res: &mut [u64]) -> u32
        ensures { Replied (reply done (values self)) result res.old res.new };
}

// The reply to a refusal: its number, and the value and the entry that it carries.
fn refuse(refusal: Refusal, res: &mut [u64]) -> u32
    ensures { Replied (reply (fault_of refusal).number ((fault_of refusal).value ∷ (fault_of refusal).entry ∷ [])) result
        res.old res.new }
{
    let fault = Fault::from(refusal);
    c_reply::put(fault.number, &[fault.value, fault.entry as u64], res)
}

// The reply of an answer that waits for a page.
fn wait(page: u32, rows: usize, pages: u64, res: &mut [u64]) -> u32
    ensures { Replied (wait_reply page rows pages) result res.old res.new }
{
    c_reply::put(Code::WAITING, &[rows as u64, pages, page as u64], res)
}

// The reply to an answer, whether it is refused or not.
pub fn reply<T: Answer>(answer: Result<T, Refusal>, res: &mut [u64]) -> u32
    ensures { Replied (reply_to T.says (answer_of answer)) result res.old res.new }
{
    match answer {
        Ok(answer) => answer.put(res),
        Err(refusal) => refuse(refusal, res),
    }
}

impl Answer for Opened {
    ghost says = { λ opened. open_reply (file_of opened) };

    fn put(self, res: &mut [u64]) -> u32 {
        c_reply::put(Code::DONE, &[self.blocks], res)
    }
}

impl Answer for Delivered {
    ghost says = { λ delivered. deliver_reply (taken_of delivered) };

    fn put(self, res: &mut [u64]) -> u32 {
        match self {
            Delivered::New(count) => c_reply::put(Code::DONE, &[count], res),
            Delivered::Same(count) => c_reply::put(Code::SAME, &[count], res),
        }
    }
}

// The held count of a packet.
impl Answer for u64 {
    ghost says = { packet_reply };

    fn put(self, res: &mut [u64]) -> u32 {
        c_reply::put(Code::DONE, &[self], res)
    }
}

impl Answer for Walked {
    ghost says = { λ walked. walk_reply (progress_of walked) };

    fn put(self, res: &mut [u64]) -> u32 {
        match self {
            Walked::Full { rows, pages } => c_reply::put(Code::DONE, &[rows as u64, pages], res),
            Walked::Waiting { page, rows, pages } => wait(page, rows, pages, res),
        }
    }
}

impl<T: Values> Answer for Reply<T> {
    ghost says = { λ found. found_reply T.values (reply_of (λ x. x) found) };

    fn put(self, res: &mut [u64]) -> u32 {
        match self {
            Reply::Found(found) => found.put_values(res),
            Reply::Waiting { page, rows, pages } => wait(page, rows, pages, res),
        }
    }
}

impl Values for Track {
    ghost values = { track_of };

    // The numbers in the order of their offsets.
    fn put_values(self, res: &mut [u64]) -> u32 {
        let numbers = [
            self.sample_rate as u64,
            self.composer_id as u64,
            self.file_size as u64,
            self.artwork_id as u64,
            self.key_id as u64,
            self.original_artist_id as u64,
            self.label_id as u64,
            self.remixer_id as u64,
            self.bitrate as u64,
            self.track_number as u64,
            self.tempo as u64,
            self.genre_id as u64,
            self.album_id as u64,
            self.artist_id as u64,
            self.id as u64,
            self.disc_number as u64,
            self.play_count as u64,
            self.year as u64,
            self.sample_depth as u64,
            self.duration as u64,
            self.color_id as u64,
            self.rating as u64,
        ];
        c_reply::put(Code::DONE, &numbers, res)
    }
}

fn put_id(id: u32, res: &mut [u64]) -> u32
    ensures { Replied (reply done (id ∷ [])) result res.old res.new }
{
    c_reply::put(Code::DONE, &[id as u64], res)
}

impl Values for Record {
    ghost values = { λ r. (record_of r).numbers };

    fn put_values(self, res: &mut [u64]) -> u32 {
        match self {
            Record::Track(track) => track.put_values(res),
            Record::Genre { id }
            | Record::Artist { id }
            | Record::Label { id }
            | Record::Key { id }
            | Record::Artwork { id } => put_id(id, res),
            Record::Color { id } => put_id(u32::from(id), res),
            Record::Album { artist_id, id } => c_reply::put(
                Code::DONE,
                &[artist_id as u64, id as u64],
                res,
            ),
            Record::PlaylistNode {
                parent_id,
                sort_order,
                id,
                raw_is_folder,
            } => c_reply::put(
                Code::DONE,
                &[
                    parent_id as u64,
                    sort_order as u64,
                    id as u64,
                    raw_is_folder as u64,
                ],
                res,
            ),
            Record::PlaylistEntry {
                entry_index,
                track_id,
                playlist_id,
            } => c_reply::put(
                Code::DONE,
                &[entry_index as u64, track_id as u64, playlist_id as u64],
                res,
            ),
        }
    }
}

// Page and entry of the record's row, and behind them its numbers.
impl Values for RecordOn {
    ghost values = { λ found. record_values (record_on_of found) };

    fn put_values(self, res: &mut [u64]) -> u32 {
        c_reply::put(Code::DONE, &[self.page as u64, self.entry as u64], res);
        if res.len() < 2 {
            return Code::DONE;
        }
        self.record.put_values(&mut res[2..])
    }
}

fn encoding_number(encoding: Encoding) -> u64
    ensures { result ≡ encoding_number encoding }
{
    match encoding {
        Encoding::Ascii => 0,
        Encoding::Utf16 => 1,
    }
}

impl Values for Text {
    ghost values = { λ text. text_values (text_place_of text) };

    fn put_values(self, res: &mut [u64]) -> u32 {
        let Text {
            place,
            len,
            encoding,
        } = self;
        c_reply::put(
            Code::DONE,
            &[place as u64, len as u64, encoding_number(encoding)],
            res,
        )
    }
}

impl Values for FileLayout {
    ghost values = { layout_values };

    fn put_values(self, res: &mut [u64]) -> u32 {
        c_reply::put(Code::DONE, &[self.len_page as u64, self.page_count], res)
    }
}

impl Values for TableBounds {
    ghost values = { bounds_values };

    fn put_values(self, res: &mut [u64]) -> u32 {
        c_reply::put(
            Code::DONE,
            &[self.first_page as u64, self.last_page as u64],
            res,
        )
    }
}

// The reply with a block that is missing.
pub fn reply_missing(answer: Option<u64>, res: &mut [u64]) -> u32
    ensures { Replied (missing_reply (missing_of answer)) result res.old res.new }
{
    match answer {
        Some(block) => c_reply::put(Code::DONE, &[block], res),
        None => Code::NONE,
    }
}
