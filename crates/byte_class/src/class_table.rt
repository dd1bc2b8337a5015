// The class of each byte in a string: which bytes may stand there, start an escape or continue a character. RFC 8259,
// section 7, has the quotation mark, the backslash and the controls; RFC 3629, section 4, the bytes beyond ASCII.
ghost use Rattle.std.specs.Prelude.{◌+◌, ◌*◌, ◌<◌};
ghost use Rattle.byte_class.specs.Class.{ClassRule};
ghost use Rattle.byte_class.specs.Laying.{Filled};

// The table, sixteen bytes to a row. The classes and their symbols:
//
//     Q  quote             22, which ends the string
//     E  backslash         5C, which starts an escape
//     0  control           below 20
//     .  other ASCII       the others below 80
//     -  continuation      80 to BF
//     2  first of two      C2 to DF
//     3  first of three    E0 to EF
//     4  first of four     F0 to F4
//     x  never             C0, C1 and F5 to FF
//
// The table of steps is read by a symbol's last four bits (crate `lexer`, STEPS).
const CLASSES: [[u8; 16]; 16] = [
    // 0123456789ABCDEF
    *b"0000000000000000", // 00 to 0F
    *b"0000000000000000", // 10 to 1F
    *b"..Q.............", // 20 to 2F
    *b"................", // 30 to 3F
    *b"................", // 40 to 4F
    *b"............E...", // 50 to 5F
    *b"................", // 60 to 6F
    *b"................", // 70 to 7F
    *b"----------------", // 80 to 8F
    *b"----------------", // 90 to 9F
    *b"----------------", // A0 to AF
    *b"----------------", // B0 to BF
    *b"xx22222222222222", // C0 to CF
    *b"2222222222222222", // D0 to DF
    *b"3333333333333333", // E0 to EF
    *b"44444xxxxxxxxxxx", // F0 to FF
];

// A row laid down behind those before it.
fn put_row(table: &mut [u8; 256], rows: &[[u8; 16]; 16], i: usize)
    requires { (i < 16) × Filled rows.now (16 * i) table.old }
    ensures { Filled rows.now (16 * i + 16) table.new }
{
    for j in 0..16 {
        table[16 * i + j] = rows[i][j];
    }
}

// The rows, one after another.
fn flat(rows: &[[u8; 16]; 16]) -> [u8; 256]
    ensures { Filled rows.now 256 result }
{
    let mut table = [0; 256];
    for i in 0..16 {
        put_row(&mut table, rows, i);
    }
    table
}

// The symbol of each byte's class. The compiler knows the rows and stores the result directly on the stack. So call
// this before a loop over bytes, never inside it.
pub fn classes() -> [u8; 256]
    ensures { ClassRule result }
{
    flat(&CLASSES)
}
