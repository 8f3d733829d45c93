// The map of a file: a bit for each block, in 64-bit words (rules 1.7 to 1.9, 1.17 and 2.4).
#![tactic(auto)]

ghost use Rattle.std.specs.Prelude.{◌≡◌, ◌<◌, ◌^◌, length};
ghost use Rattle.bitmap.specs.Words.{block_count, word_count};
ghost use Rattle.bitmap.specs.Bit.{word_at, bit};
ghost use Rattle.bitmap.specs.Count.{ones_in, held_count};
ghost use Rattle.bitmap.specs.Spare.{spare_bit};

use format::Block;

// The blocks of a file of a given length.
pub fn block_count(len: u64) -> u64
    ensures { result ≡ block_count len }
{
    len / (Block::SIZE as u64)
}

// The words of its map that are in use.
pub fn word_count(len: u64) -> u64
    ensures { result ≡ word_count len }
{
    block_count(len).div_ceil(64)
}

// A word of the map, 0 past its end.
pub fn word_at(map: &[u64], i: u64) -> u64
    ensures { result ≡ word_at map.now i }
{
    map.get(i as usize).copied().unwrap_or(0)
}

// Whether a block's bit is set in the map.
#[tactic(auto, unfolding(crate::specs::Bit::bit))]
pub fn has_bit(map: &[u64], block: u64) -> bool
    ensures { result ≡ bit map.now block }
{
    (word_at(map, block / 64) >> (block % 64)) % 2 == 1
}

// The ones of each word, summed.
fn ones(words: &[u64]) -> u64
    requires { length words.now < 2 ^ 50 }
    ensures { result ≡ ones_in words.now }
{
    words.iter().map(|word| u64::from(word.count_ones())).sum()
}

// The held count of a file of a given length.
#[tactic(auto, using(std::proofs::lemmas::List::take_min), unfolding(crate::specs::Count::held_count))]
pub fn held_count(len: u64, map: &[u64]) -> u64
    ensures { result ≡ held_count len map.now }
{
    let words = word_count(len) as usize;
    ones(&map[..words.min(map.len())])
}

// Whether a bit past the last block is set in a word in use: only the last of them has such bits.
pub fn has_spare_bit(len: u64, map: &[u64]) -> bool
    ensures { result ≡ spare_bit len map.now }
{
    let blocks = block_count(len);
    let used = blocks % 64;
    used != 0 && word_at(map, blocks / 64) >> used != 0
}
