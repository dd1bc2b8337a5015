// The bytes that a fragment holds as they are: RFC 3986, section 3.5.
ghost use Rattle.std.specs.Prelude.{◌≡◌};
ghost use Rattle.fragment.specs.Kept.{is_kept};
ghost use Rattle.fragment.specs.Scan.{KeptTable};

// Sixteen to a row. A kept byte stands in its own place. A point, itself a kept byte, stands in the place of any other.
pub const KEPT: [u8; 256] = *b"\
    ................\
    ................\
    .!..$.&'()*+,-./\
    0123456789:;.=.?\
    @ABCDEFGHIJKLMNO\
    PQRSTUVWXYZ...._\
    .abcdefghijklmno\
    pqrstuvwxyz...~.\
    ................\
    ................\
    ................\
    ................\
    ................\
    ................\
    ................\
    ................";

// Whether a byte is kept, by the lent table. It is lent from the two calls on, and not named here: a constant array is
// laid out on the stack wherever it is used (docs/PROVING.md, "What the compiler does").
pub fn is_kept(b: u8, kept: &[u8; 256]) -> bool
    requires { KeptTable kept.now }
    ensures { result ≡ is_kept b }
{
    kept[usize::from(b)] == b
}
