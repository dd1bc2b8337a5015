// What needs more than a class, in one place. A string is read byte by byte with a table of steps (crate `lexer`,
// STEPS), in which each byte has a column. The column is the byte's class, except for three things that no class says:
// which second bytes follow E0, ED, F0 and F4; which bytes these four are; which letters make an escape that is written
// as it is read.
ghost use Rattle.std.specs.Prelude.{◌≤◌, ◌≡◌, length};
ghost use Rattle.byte_class.specs.Column.{ColumnRule};
ghost use Rattle.byte_class.specs.Laying.{Laid};

use crate::class_table::classes;

// The columns that belong to no class: numbers that are not the last four bits of any symbol.
const FROM_80: u8 = 6;

const FROM_90: u8 = 7;

const FIRST_E0: u8 = 9;

const FIRST_ED: u8 = 10;

const FIRST_F0: u8 = 11;

const FIRST_F4: u8 = 12;

const KEPT_ESCAPE: u8 = 15;

// `v` laid down in the entries from `low` to before `high`.
fn lay(table: &mut [u8; 256], low: usize, high: usize, v: u8)
    requires { (low ≤ high) × (high ≤ 256) × (length table.old ≡ 256) }
    ensures { Laid low high v table.old table.new }
{
    for b in low..high {
        table[b] = v;
    }
}

// The column of each byte. The second byte is A0 to BF after E0, 80 to 9F after ED, 90 to BF after F0 and 80 to 8F
// after F4: RFC 3629, section 4.
pub fn columns() -> [u8; 256]
    ensures { ColumnRule result }
{
    let mut table = classes();
    lay(&mut table, 0x80, 0x90, FROM_80);
    lay(&mut table, 0x90, 0xA0, FROM_90);
    table[b'b' as usize] = KEPT_ESCAPE;
    table[b'f' as usize] = KEPT_ESCAPE;
    table[b'n' as usize] = KEPT_ESCAPE;
    table[b'r' as usize] = KEPT_ESCAPE;
    table[b't' as usize] = KEPT_ESCAPE;
    table[0xE0] = FIRST_E0;
    table[0xED] = FIRST_ED;
    table[0xF0] = FIRST_F0;
    table[0xF4] = FIRST_F4;
    table
}
