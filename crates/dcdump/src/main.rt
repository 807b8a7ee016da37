// The program: frames on standard input, a report on standard output (FORMAT, "Frames").
#![tactic(auto)]

mod buffers;
mod dump;
mod messages;

ghost use Rattle.std.specs.Prelude.{◌≡◌, ◌+◌, ◌≤◌, length, take, IfOk};

use buffers::{INPUT, OUTPUT};
use std::io;
use std::io::{Read, Stdin, Stdout, Write};

// One read to buf from `done` on: how many bytes came. The bytes before stay.
fn read_some(from: &mut Stdin, buf: &mut [u8], done: usize) -> io::Result<usize>
    requires { done ≤ length buf.old }
    ensures result_in_bounds { IfOk result (λ n. done + n ≤ length buf.new) }
    ensures buf_unchanged { take done buf.new ≡ take done buf.old }
{
    from.read(&mut buf[done..])
}

// Reads until the input ends or buf is full: how many bytes came.
fn read_input(from: &mut Stdin, buf: &mut [u8]) -> io::Result<usize>
    ensures { IfOk result (λ n. n ≤ length buf.new) }
{
    let mut done = 0;
    // A read brings as many bytes as there are.
    while done < buf.len() {
        let n = read_some(from, buf, done)?;
        if n == 0 {
            break;
        }
        done += n;
    }
    Ok(done)
}

// Writes the output for an input.
fn report(to: &mut Stdout, input: &[u8]) -> io::Result<()> {
    let mut out = buffers::zeros::<OUTPUT>();
    let n = dump::dump(input, &mut out);
    to.write_all(&out[..n])
}

fn main(rt: HostRuntime) -> io::Result<()> {
    let mut input = buffers::zeros::<INPUT>();
    let n = read_input(&mut rt.stdin(), &mut input)?;
    report(&mut rt.stdout(), &input[..n])
}
