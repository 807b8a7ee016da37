// The lines that the program writes (FORMAT, "Frames").
ghost use Rattle.std.specs.Prelude.{[], ◌∷◌, ◌++◌};
ghost use Rattle.verdict.specs.Verdict.{number};
ghost use Rattle.print.specs.inner.Put.{Put};
ghost use Rattle.print.specs.Text.{decimal};
ghost use Rattle.dcdump.specs.Messages.{refused_line};

use verdict::Refusal;

// A line, or its end: words, and the number after them.
pub fn put_line(out: &mut [u8], at: usize, words: &[u8], n: usize) -> usize
    ensures { Put out.old at (words.now ++ (decimal n ++ (0x0a ∷ []))) result out.new }
{
    let p = print::put_bytes(out, at, words);
    let q = print::put_decimal(out, p, n);
    print::put(out, q, b'\n')
}

// A refusal, at the front of a buffer: its number and its place.
pub fn put_refused(out: &mut [u8], refusal: Refusal) -> usize
    ensures { Put out.old 0 (refused_line (number refusal.0) refusal.1) result out.new }
{
    let Refusal(rule, place) = refusal;
    let number = rule.number();
    let p = print::put_bytes(out, 0, b"refused ");
    let q = print::put_decimal(out, p, number as usize);
    put_line(out, q, b" at ", place)
}
