// With what every question begins: the table that is asked for, block 0, and the walk for a table of a file.
#![tactic(auto)]

ghost use Rattle.std.specs.Prelude.{◌≡◌};
ghost use Rattle.refusal.specs.Answer.{answer_of};
ghost use Rattle.intake.specs.Memory.{memory_of, block_at};
ghost use Rattle.chain.specs.Tally.{tally, walked_of};
ghost use Rattle.table_walk.specs.Asked.{asked_table, asked_slot};
ghost use Rattle.table_walk.specs.Walk.{table_walk, walk_directory};

use chain::Walked;
use directory::Directory;
use format::Block;
use intake::{Intake, Memory};
use refusal::Refusal;
use table::Table;

// What the walk for a table answers, and the directory that it went by.
#[derive(Clone, Copy, Debug, PartialEq, Eq)]
pub struct TableWalked {
    pub walked: Result<Walked, Refusal>,
    pub directory: Directory,
}

// The table asked for, past refusals 1 to 4 and 8.
#[tactic(auto, using(lists::proofs::Choice::tests), unfolding(crate::specs::Asked::asked_table, intake::specs::Check::check_call, intake::specs::Check::check_lengths))]
pub fn asked(intake: Intake, memory: Memory, number: u32) -> Result<Table, Refusal>
    ensures { answer_of result ≡ asked_table intake.len (memory_of memory.entry) number }
{
    intake::check(intake, memory)?;
    Table::try_from(number)
}

// The table of a question for a string, past refusal 19 too.
pub fn asked_slot(
    intake: Intake,
    memory: Memory,
    number: u32,
    slot: usize,
) -> Result<Table, Refusal>
    ensures { answer_of result ≡ asked_slot intake.len (memory_of memory.entry) number slot }
{
    let table = asked(intake, memory, number)?;
    if table.slots() <= slot {
        return Err(Refusal::NoSlot);
    }
    Ok(table)
}

// Block 0, as far as the image has it.
#[tactic(auto, unfolding(intake::specs::Memory::block_at))]
pub fn first_block(image: &[u8]) -> &[u8]
    ensures { result.now ≡ block_at image.now 0 }
{
    lists::subslice(image, 0, Block::SIZE)
}

// The walk for a table of a file of len bytes. The header is read here, once for a question.
pub fn walk_table(len: u64, memory: Memory, table: Table) -> TableWalked
    ensures { (walked_of result.walked ≡ tally (table_walk len (memory_of memory.entry) table)) ×
        (result.directory ≡ walk_directory len (memory_of memory.entry)) }
{
    if !bitmap::has_bit(memory.map, 0) {
        return TableWalked {
            walked: Ok(Walked::Waiting {
                page: 0,
                rows: 0,
                pages: 0,
            }),
            directory: Directory::none(),
        };
    }
    match Directory::read(first_block(memory.image), len) {
        Some(directory) => TableWalked {
            walked: chain::walk(directory, table, memory),
            directory,
        },
        None => TableWalked {
            walked: Err(Refusal::FileHeader),
            directory: Directory::none(),
        },
    }
}
