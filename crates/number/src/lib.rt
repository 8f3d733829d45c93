// Little-endian and big-endian numbers in a byte slice. A byte past the slice's end counts as 0.
#![tactic(auto)]

ghost use Rattle.std.specs.Prelude.{◌≡◌, ◌+◌, ◌^◌, ◌<◌, nat_le, length};
ghost use Rattle.number.specs.Number.{byte_at, bytes_at, le16, le24, le32, be16, be32};

// The byte at an offset, 0 past the end.
pub fn byte_at(s: &[u8], at: usize) -> u8
    ensures { result ≡ byte_at s.now at }
{
    s.get(at).copied().unwrap_or(0)
}

// The four bytes at an offset.
fn bytes_at(s: &[u8], at: usize) -> [u8; 4]
    ensures { result ≡ bytes_at s.now at }
{
    match s.get(at..) {
        Some([a, b, c, d, ..]) => [*a, *b, *c, *d],
        Some([a, b, c]) => [*a, *b, *c, 0],
        Some([a, b]) => [*a, *b, 0, 0],
        Some([a]) => [*a, 0, 0, 0],
        _ => [0; 4],
    }
}

// Whether so many bytes stand at an offset.
fn has(s: &[u8], at: usize, count: usize) -> bool
    ensures { result ≡ nat_le (at + count) (length s.now) }
{
    count <= s.len() && at <= s.len() - count
}

// The number in the two bytes at an offset, the low one first.
#[tactic(auto, unfolding(crate::specs::Number::le16))]
pub fn u16_at(s: &[u8], at: usize) -> u16
    ensures { result ≡ le16 s.now at }
{
    if has(s, at, 2) {
        u16::from_le_bytes([s[at], s[at + 1]])
    } else {
        u16::from(byte_at(s, at))
    }
}

// The number in the three bytes at an offset, the low one first.
#[tactic(auto, unfolding(crate::specs::Number::le24, crate::specs::Number::le16))]
pub fn u24_at(s: &[u8], at: usize) -> u32
    ensures { (result ≡ le24 s.now at) × (result < 2 ^ 24) }
{
    if has(s, at, 3) {
        u32::from_le_bytes([s[at], s[at + 1], s[at + 2], 0])
    } else {
        u32::from(u16_at(s, at))
    }
}

// The number in the four bytes at an offset, the low one first.
#[tactic(auto, using(crate::proofs::Number::le32_bytes))]
pub fn u32_at(s: &[u8], at: usize) -> u32
    ensures { result ≡ le32 s.now at }
{
    if has(s, at, 4) {
        u32::from_le_bytes([s[at], s[at + 1], s[at + 2], s[at + 3]])
    } else {
        u32::from_le_bytes(bytes_at(s, at))
    }
}

// The number in the two bytes at an offset, the high one first.
#[tactic(auto, unfolding(crate::specs::Number::be16))]
pub fn u16_be_at(s: &[u8], at: usize) -> u16
    ensures { result ≡ be16 s.now at }
{
    if has(s, at, 2) {
        u16::from_be_bytes([s[at], s[at + 1]])
    } else {
        u16::from_be_bytes([byte_at(s, at), 0])
    }
}

// The number in the four bytes at an offset, the high one first.
#[tactic(auto, using(crate::proofs::Number::be32_bytes))]
pub fn u32_be_at(s: &[u8], at: usize) -> u32
    ensures { result ≡ be32 s.now at }
{
    if has(s, at, 4) {
        u32::from_be_bytes([s[at], s[at + 1], s[at + 2], s[at + 3]])
    } else {
        u32::from_be_bytes(bytes_at(s, at))
    }
}
