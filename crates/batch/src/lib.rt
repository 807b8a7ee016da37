// Many lookups in one acceptance: each text is answered as the question for one text would be.
#![tactic(auto)]

ghost use Rattle.std.specs.Prelude.{◌≡◌, ◌+◌, ◌*◌, ◌%◌, ◌≤◌, ◌<◌, length};
ghost use Rattle.laws.specs.inner.Lists.{splice};
ghost use Rattle.verdict.specs.Checks.{first_fault};
ghost use Rattle.verdict.specs.Verdict.{Accepted, answer_of};
ghost use Rattle.strings.specs.inner.Lent.{lent_table};
ghost use Rattle.lookup.specs.Kinds.{told_in};
ghost use Rattle.path.specs.Names.{names_of, path_checks};
ghost use Rattle.batch.specs.Places.{place, places, answers_after};
ghost use Rattle.batch.specs.inner.Answer.{Answered};

mod group;

use hash::HashTables;
use lookup::{Kind, Lookup, first};
use strings::checked::CheckedTable;
use verdict::{Refusal, Rule};

// The bytes of a text's place in the answers, and where its value stands in it, behind the kind.
const PLACE_SIZE: usize = 8;

const VALUE_AT: usize = 4;

// The bytes of the characters whose zeros are counted at once.
const BLOCK_SIZE: usize = 2 * 65535;

// How many texts there are: each 0 ends one. A block is as long as its zeros can be counted at once.
fn count_texts(texts: &[u8]) -> usize
    requires { length texts.now % 2 ≡ 0 }
    ensures { result ≡ length (names_of texts.now) }
{
    let mut n = 0;
    for block in texts.chunks(BLOCK_SIZE) {
        n += text::zeros(block, 0, block.len() / 2);
    }
    n
}

// Writes what a lookup answers in place i: its kind, 0 found, 1 absent or 2 collided, and its value.
fn put_place(answers: &mut [u8], i: usize, l: Lookup)
    requires { 8 * i + 8 ≤ length answers.old }
    ensures { answers.new ≡ splice answers.old (8 * i) (place l) }
{
    let at = PLACE_SIZE * i;
    le::put_u32(answers, at, le::wide(l.code()));
    le::put_u32(answers, at + VALUE_AT, l.value());
}

// Writes what each text's lookup answers, a group of texts at a time.
fn put_places(checked: &CheckedTable, t: &HashTables, kind: Kind, texts: &[u8], answers: &mut [u8])
    requires { (first_fault (path_checks texts.now) ≡ Accepted) × (8 * length (names_of texts.now) ≤ length answers.old) }
    ensures { answers.new
        ≡ splice answers.old 0 (places (told_in kind (lent_table checked.now.table)) (names_of texts.now)) }
{
    let table = &checked.table;
    let mut lengths = [0; 64];
    let mut hashes = [0; 64];
    let mut low = [0; 64];
    let mut picked = [None; 64];
    let mut skipped = 0;
    let mut done = 0;
    let mut at = 0;
    // A group of texts at a time: how long a group is, is known when it was measured.
    while at < texts.len() {
        let n = group::measure_group(texts, t, at, &mut lengths, &mut hashes);
        skipped = search::group::lower_bounds(table, &hashes, n, skipped, &mut low);
        group::prefetch_texts(checked, kind, &lengths, &hashes, n, &mut low, &mut picked);
        for j in 0..n {
            let k = lengths[j];
            let l = first::find_picked(
                checked,
                kind,
                le::wide(hashes[j]),
                low[j] % 4294967296,
                picked[j],
                &texts[at..at + 2 * k],
            );
            put_place(answers, done + j, l);
            at += 2 * k + 2;
        }
        done += n;
    }
}

// Looks up each text in a table that is accepted: refusal 24 or 25, or how many there are. Nothing is written unless there is a place for
// each.
pub fn find_each(
    checked: &CheckedTable,
    t: &HashTables,
    kind: Kind,
    texts: &[u8],
    answers: &mut [u8],
) -> Result<usize, Refusal>
    ensures answer { Answered texts.now (length answers.old) result }
    ensures answers { answers.new
        ≡ answers_after (told_in kind (lent_table checked.now.table)) texts.now answers.old (answer_of result) }
{
    path::names::check_path(texts)?;
    let n = count_texts(texts);
    if answers.len() / PLACE_SIZE < n {
        return Err(Refusal(Rule::AnswerRoom, n));
    }
    put_places(checked, t, kind, texts, answers);
    Ok(n)
}
