// Frames: lines of hexadecimal to bytes (FORMAT, "Frames").
#![tactic(auto)]

ghost use Rattle.std.specs.Prelude.{◌≡◌, true, ◌+◌, ◌≤◌, ◌<◌, length, get_or, drop};
ghost use Rattle.laws.specs.inner.Lists.{splice};
ghost use Rattle.frames.specs.Lines.{are_bytes, bytes_of};
ghost use Rattle.frames.specs.Frames.{file_of, frames_of};
ghost use Rattle.frames.specs.inner.Reading.{first_line, value_of, byte_of, offset_of, bytes_written, given_by, line_at};

// The first line that is no frame, counted from 1.
#[derive(Clone, Copy, Debug, PartialEq, Eq)]
pub struct BadLine(pub usize);

// What one line gives: where the next line starts and how many bytes there are now.
#[derive(Clone, Copy)]
struct Frame {
    next: usize,
    count: usize,
}

// The value of a digit.
fn digit(c: u8) -> Option<u8>
    ensures { result ≡ value_of c }
{
    match c {
        b'0'..=b'9' => Some(c - b'0'),
        b'a'..=b'f' => Some(c - b'a' + 10),
        _ => None,
    }
}

// The byte that the two digits at p write.
fn digit_pair(input: &[u8], p: usize) -> Option<u8>
    requires { p + 2 ≤ length input.now }
    ensures { result ≡ byte_of (get_or input.now p 0) (get_or input.now (p + 1) 0) }
{
    let high = digit(input[p])?;
    let low = digit(input[p + 1])?;
    Some(high * 16 + low)
}

// The number that the 8 digits at p write where a space follows them.
fn offset(input: &[u8], p: usize) -> Option<usize>
    requires { p + 9 ≤ length input.now }
    ensures { result ≡ offset_of (drop p input.now) }
{
    let mut number = 0;
    for i in 0..8 {
        let d = digit(input[p + i])?;
        number = number * 16 + usize::from(d);
    }
    if input[p + 8] == b' ' {
        return Some(number);
    }
    None
}

// How many bytes the digits from p up to a newline write: at most 32, so the newline follows 0 to 32 pairs.
fn count_bytes(input: &[u8], p: usize) -> Option<usize>
    requires { p ≤ length input.now }
    ensures { result ≡ bytes_written (drop p input.now) }
{
    for k in 0..33 {
        let at = p + 2 * k;
        if input.len() <= at {
            return None;
        }
        if input[at] == b'\n' {
            return Some(k);
        }
        if input.len() - at < 2 {
            return None;
        }
        digit_pair(input, at)?;
    }
    None
}

// The k bytes that the digits from p up to a newline write, to out from n on.
fn write_bytes(input: &[u8], p: usize, k: usize, out: &mut [u8], n: usize)
    requires input_value { are_bytes (first_line (drop p input.now)) ≡ true }
    requires input_len { length (bytes_of (first_line (drop p input.now))) ≡ k }
    requires k_in_bounds { n + k ≤ length out.old }
    ensures { out.new ≡ splice out.old n (bytes_of (first_line (drop p input.now))) }
{
    for i in 0..k {
        out[n + i] = digit_pair(input, p + 2 * i).unwrap();
    }
}

// One line, at p, where n bytes stand already. The bytes of a frame are written to out from n on; no other line changes it.
fn read_line(input: &[u8], p: usize, n: usize, out: &mut [u8]) -> Option<Frame>
    requires p_in_bounds { p < length input.now }
    requires n_bound { n ≤ 32768 }
    requires in_bounds { 32768 ≤ length out.old }
    ensures answer { result ≡ line_at input.now p n }
    ensures bytes { out.new ≡ splice out.old n (given_by n (first_line (drop p input.now))) }
{
    if input.len() - p < 9 {
        return None;
    }
    if offset(input, p)? != n {
        return None;
    }
    let k = count_bytes(input, p + 9)?;
    if k == 0 {
        return None;
    }
    if 32768 - n < k {
        return None;
    }
    write_bytes(input, p + 9, k, out, n);
    Some(Frame {
        next: p + 10 + 2 * k,
        count: n + k,
    })
}

// How many bytes the input's frames give: this file is written to the front of out. Or the first bad line, out then holding what
// the lines before it give.
pub fn read_frames(input: &[u8], out: &mut [u8]) -> Result<usize, BadLine>
    requires { 32768 ≤ length out.old }
    ensures answer { result ≡ frames_of input.now }
    ensures file { out.new ≡ splice out.old 0 (file_of input.now) }
{
    let mut n = 0;
    let mut p = 0;
    let mut number = 1;
    // Line by line: where the next line starts is known when this one was read.
    while p < input.len() {
        let Some(line) = read_line(input, p, n, out) else {
            return Err(BadLine(number));
        };
        p = line.next;
        n = line.count;
        number += 1;
    }
    Ok(n)
}
