// What a function of the C interface gives back: a code, and values at the front of the result, as many as it takes.
#![tactic(auto)]

ghost use Rattle.c_reply.specs.Reply.{reply, Replied};

// A code that a function of the C interface returns. A refusal has its own number.
#[derive(Clone, Copy, Debug, PartialEq, Eq)]
pub struct Code {
    pub number: u32,
}

impl Code {
    // Open, New, the held count of a packet, Full, found, or the number of beats.
    pub const DONE: u32 = 0;

    pub const SAME: u32 = 64;

    pub const WAITING: u32 = 65;

    // No block is missing.
    pub const NONE: u32 = 66;
}

// Writes the values to the front of the result, as many as it takes, and returns the code.
pub fn put(code: u32, values: &[u64], res: &mut [u64]) -> u32
    ensures { Replied (reply code values.now) result res.old res.new }
{
    for (i, value) in values.iter().enumerate() {
        if res.len() <= i {
            return code;
        }
        res[i] = *value;
    }
    code
}
