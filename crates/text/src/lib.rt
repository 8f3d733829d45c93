// DeviceSQL strings: where a string's text stands, how long it is, and its encoding.
#![tactic(auto)]

ghost use Rattle.std.specs.Prelude.{◌≡◌, true, ◌<◌, ◌+◌, length};
ghost use Rattle.lists.specs.Subslice.{subslice};
ghost use Rattle.number.specs.Number.{byte_at};
ghost use Rattle.refusal.specs.Answer.{given};
ghost use Rattle.text.specs.Zero.{first_zero};
ghost use Rattle.text.specs.Code.{is_code};
ghost use Rattle.text.specs.Text.{is_long, is_inside, if_inside, rest_behind, code_text, text_by_kind, read_text, text_of};

use table::Table;

#[derive(Clone, Copy, Debug, PartialEq, Eq)]
pub enum Encoding {
    Ascii,
    // UTF-16, little-endian.
    Utf16,
}

// A string's text: its first byte, its length in bytes and its encoding. It is not decoded.
#[derive(Clone, Copy, Debug, PartialEq, Eq)]
pub struct Text {
    pub place: usize,
    pub len: usize,
    pub encoding: Encoding,
}

// The place of the first zero byte.
fn first_zero(bytes: &[u8]) -> Option<usize>
    ensures { result ≡ first_zero bytes.now 0 }
{
    bytes.iter().position(|byte| *byte == 0)
}

// A recording code's text, from start to the first zero byte before end.
fn code(s: &[u8], start: usize, end: usize) -> Option<Text>
    ensures { text_of result ≡ code_text start (first_zero (subslice s.now start end) 0) }
{
    let len = first_zero(lists::subslice(s, start, end))?;
    Some(Text {
        place: start,
        len,
        encoding: Encoding::Ascii,
    })
}

// A string that begins at an offset of a row's part, which ends where the row index begins.
#[derive(Clone, Copy)]
struct StringAt<'a> {
    s: &'a [u8],
    at: usize,
    ghost begins_inside: { at < length s.now },
}

impl StringAt<'_> {
    // Whether a string of `whole` bytes has its head and ends inside the part.
    #[tactic(auto, using(lists::proofs::Choice::tests), unfolding(crate::specs::Text::is_inside))]
    fn is_inside(self, head: usize, whole: usize) -> bool
        ensures { result ≡ is_inside self.entry.s.now self.entry.at head whole }
    {
        let left = self.s.len() - self.at;
        head <= whole && head <= left && whole <= left
    }

    // Whether a `90` string of `whole` bytes is a recording code.
    #[tactic(auto, using(lists::proofs::Choice::tests, crate::proofs::TextAgree::short_code), unfolding(crate::specs::Code::is_code))]
    fn is_code(self, table: Table, slot: usize, whole: usize) -> bool
        ensures { result ≡ is_code table slot 0x90 whole (byte_at self.entry.s.now (self.entry.at + 4)) }
    {
        table.holds_codes(slot) && 5 <= whole && number::byte_at(self.s, self.at + 4) == 0x03
    }

    // The rest behind the head of a string of `whole` bytes, if it is inside.
    #[tactic(auto, using(crate::proofs::TextInside::inside_fits))]
    fn rest_behind(self, head: usize, whole: usize, encoding: Encoding) -> Option<Text>
        ensures { text_of result ≡ if_inside self.entry.s.now self.entry.at head whole (given (rest_behind self.entry.at head whole encoding)) }
    {
        if !self.is_inside(head, whole) {
            return None;
        }
        Some(Text {
            place: self.at + head,
            len: whole - head,
            encoding,
        })
    }

    // A long string: kind `40` or `90`.
    #[tactic(auto, using(crate::proofs::LongText::outside, crate::proofs::LongText::ascii, crate::proofs::LongText::code, crate::proofs::LongText::odd, crate::proofs::LongText::even), unfolding(crate::specs::Code::code_length))]
    fn long(self, table: Table, slot: usize, first: u8) -> Option<Text>
        requires { is_long first ≡ true }
        ensures { text_of result ≡ text_by_kind table slot self.entry.s.now self.entry.at first }
    {
        let whole = number::u16_at(self.s, self.at + 1) as usize;
        if !self.is_inside(4, whole) {
            return None;
        }
        if first == 0x40 {
            return self.rest_behind(4, whole, Encoding::Ascii);
        }
        if self.is_code(table, slot, whole) {
            return code(self.s, self.at + 5, self.at + whole);
        }
        if whole % 2 == 1 {
            return None;
        }
        self.rest_behind(4, whole, Encoding::Utf16)
    }
}

// The string at an offset of a row's part, which ends where the row index begins, in this slot of this table; none if it is
// malformed or outside.
#[tactic(auto, using(lists::proofs::Choice::tests), unfolding(crate::specs::Text::head_size, crate::specs::Text::whole_size, crate::specs::Text::plain_text, crate::specs::Text::text_in, crate::specs::Text::read_text, crate::specs::Code::is_code))]
pub fn read(table: Table, slot: usize, s: &[u8], at: usize) -> Option<Text>
    ensures { text_of result ≡ read_text table slot s.now at }
{
    if s.len() <= at {
        return None;
    }
    let string = StringAt { s, at };
    match s[at] {
        first @ (0x40 | 0x90) => string.long(table, slot, first),
        first if first % 2 == 1 => string.rest_behind(1, (first / 2) as usize, Encoding::Ascii),
        _ => None,
    }
}
