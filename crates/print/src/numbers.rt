// Numbers.
ghost use Rattle.std.specs.Prelude.{◌≡◌, ◌/◌, ◌%◌, ◌^◌, ◌≤◌, ◌<◌};
ghost use Rattle.print.specs.inner.Put.{Put};
ghost use Rattle.print.specs.Text.{hex_digit, hex_of, decimal, whole_text};

use crate::bytes::put;

// Hex digit i of x, counted from the lowest.
fn hex_digit(x: usize, i: usize) -> u8
    requires { i < 16 }
    ensures { result ≡ hex_digit (x / 16 ^ i % 16) }
{
    let d = (x >> (4 * i)) & 15;
    if d < 10 {
        return (48 + d) as u8;
    }
    (87 + d) as u8
}

// The last n hex digits of x, the highest first.
pub fn put_hex(out: &mut [u8], at: usize, x: usize, n: usize) -> usize
    requires { n ≤ 16 }
    ensures { Put out.old at (hex_of n x) result out.new }
{
    let mut p = at;
    for i in (0..n).rev() {
        p = put(out, p, hex_digit(x, i));
    }
    p
}

// x in decimal. At most twenty digits: the calls are at most twenty deep.
pub fn put_decimal(out: &mut [u8], at: usize, x: usize) -> usize
    ensures { Put out.old at (decimal x) result out.new }
{
    if x < 10 {
        return put(out, at, (48 + x) as u8);
    }
    let p = put_decimal(out, at, x / 10);
    put(out, p, (48 + x % 10) as u8)
}

// z in decimal, with a `-` if it is negative.
pub fn put_whole(out: &mut [u8], at: usize, z: i32) -> usize
    ensures { Put out.old at (whole_text z) result out.new }
{
    let n = z.unsigned_abs() as usize;
    if 0 <= z {
        return put_decimal(out, at, n);
    }
    let p = put(out, at, b'-');
    put_decimal(out, p, n)
}
