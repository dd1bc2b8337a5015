// The index's slots: numbers of 16 bits in lent memory of their own.
ghost use Rattle.std.specs.Prelude.{◌≡◌, ◌<◌};
ghost use Rattle.index.specs.Slots.{room, bucket_slot, branch_slot, parent_slot, slot_at, slot_set, emptied};

use tape::fields::{narrow, wide};

// Rows that a search path can lead to. Rows are counted from a base.
pub const ROOM: usize = 2048;

// The slots from 0 on begin search paths. Those from BRANCHES on are branches of rows, two of each, and those from
// PARENTS on are parents of rows.
const BRANCHES: usize = 2048;

const PARENTS: usize = 6144;

// How many slots there are.
pub const SLOTS: usize = 8192;

// An odd factor, which spreads the members of different objects over the first slots.
const SPREADING: usize = 31;

// Where the search path of a name begins, by its object's row and its hash.
pub fn bucket(object: usize, hash: u16) -> usize
    ensures { result ≡ bucket_slot object hash }
{
    (object % ROOM * SPREADING + wide(hash) % ROOM) % ROOM
}

// A row's branch by a bit.
pub fn branch(row: usize, bit: u32) -> usize
    requires { (row < room) × (bit < 2) }
    ensures { result ≡ branch_slot row bit }
{
    BRANCHES + 2 * row + bit as usize
}

// A row's parent.
pub fn parent(row: usize) -> usize
    requires { row < room }
    ensures { result ≡ parent_slot row }
{
    PARENTS + row
}

// The number in a slot, and 0 behind the memory.
pub fn slot(index: &[u16], at: usize) -> usize
    ensures { result ≡ slot_at index.now at }
{
    // Not by `get`: this test is as plain, and it is what the definition's default says.
    if index.len() <= at {
        return 0;
    }
    wide(index[at])
}

// A number is put into a slot, where the memory has it.
pub fn set_slot(index: &mut [u16], at: usize, number: usize)
    ensures { index.new ≡ slot_set index.old at number }
{
    if at < index.len() {
        index[at] = narrow(number);
    }
}

// The index is made empty. Where the memory is too short for one, nothing changes.
pub fn empty(index: &mut [u16])
    ensures { index.new ≡ emptied index.old }
{
    if index.len() < SLOTS {
        return;
    }
    index[..SLOTS].fill(0);
}
