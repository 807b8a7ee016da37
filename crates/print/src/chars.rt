// Characters.
ghost use Rattle.std.specs.Prelude.{◌≡◌, ◌<◌};
ghost use Rattle.print.specs.inner.Put.{Put};
ghost use Rattle.print.specs.Text.{plain, escape};

use crate::bytes::put;
use crate::numbers::put_hex;

// Whether a character stands as itself.
fn is_plain(c: usize) -> bool
    ensures { result ≡ plain c }
{
    match c {
        0x22 | 0x3d | 0x5c => false,
        0x21..=0x7e => true,
        _ => false,
    }
}

// A character as itself, or as `\` and its four digits.
pub fn put_char(out: &mut [u8], at: usize, c: usize) -> usize
    requires { c < 65536 }
    ensures { Put out.old at (escape c) result out.new }
{
    if is_plain(c) {
        return put(out, at, c as u8);
    }
    let p = put(out, at, 0x5c);
    put_hex(out, p, c, 4)
}
