// The names of a path, looked up once.
ghost use Rattle.std.specs.Prelude.{◌≡◌, ◌+◌, ◌*◌, ◌%◌, ◌<◌, MatchOption, length};
ghost use Rattle.verdict.specs.Checks.{first_fault};
ghost use Rattle.verdict.specs.Verdict.{Accepted, answer_of};
ghost use Rattle.layout.specs.Layout.{names};
ghost use Rattle.layout.specs.declared.Edition.TheVariants.{Bits64};
ghost use Rattle.strings.specs.inner.Lent.{lent_table};
ghost use Rattle.path.specs.Names.{path_checks};
ghost use Rattle.path.specs.inner.Indices.{NameEnd, Unborne, WantedIs};

use hash::HashTables;
use lookup::{Kind, Lookup};
use strings::checked::CheckedTable;
use tree::{DEEPEST_LEVEL, MOST_LEVELS};
use verdict::{Refusal, Rule};

// The indices of a path's names: the first `count` places.
#[derive(Clone, Copy)]
pub struct Wanted {
    pub count: usize,
    pub indices: [u32; MOST_LEVELS],
}

// Refusal 24 of a path.
pub fn check_path(path: &[u8]) -> Result<(), Refusal>
    ensures { answer_of result ≡ first_fault (path_checks path.now) }
{
    let n = path.len();
    if n % 2 != 0 {
        return Err(Refusal(Rule::AskedText, n));
    }
    if n != 0 && le::u16_at(path, n - 2) != 0 {
        return Err(Refusal(Rule::AskedText, n));
    }
    Ok(())
}

// How many characters stand in front of the 0 that ends the name at an offset.
fn name_length(path: &[u8], at: usize) -> usize
    requires { (first_fault (path_checks path.now) ≡ Accepted) × (at % 2 ≡ 0) × (at < length path.now) }
    ensures { NameEnd path.now at (at + 2 * result) }
{
    for k in 0..(path.len() - at) / 2 {
        if le::u16_at(path, at + 2 * k) == 0 {
            return k;
        }
    }
    unreachable!()
}

// The indices of a path's names, or nothing where no node can bear them: below the root a chain has at most `DEEPEST_LEVEL` nodes.
pub(crate) fn find_names(checked: &CheckedTable, t: &HashTables, path: &[u8]) -> Option<Wanted>
    requires { (lent_table checked.now.table ≡ names Bits64 checked.now.table.file.now) × (first_fault (path_checks path.now) ≡ Accepted) }
    ensures { MatchOption result (Unborne Bits64 checked.now.table.file.now path.now) (WantedIs Bits64 checked.now.table.file.now path.now) }
{
    let mut indices = [0; MOST_LEVELS];
    let mut at = 0;
    for count in 0..DEEPEST_LEVEL {
        if at == path.len() {
            return Some(Wanted { count, indices });
        }
        let n = name_length(path, at);
        let name = &path[at..at + 2 * n];
        let Lookup::Found(i) = lookup::find_text(checked, t, Kind::Name, name) else {
            return None;
        };
        indices[count] = i as u32;
        at += 2 * n + 2;
    }
    // One name more than a chain can bear is not read: however long it is, nothing matches.
    if at < path.len() {
        return None;
    }
    Some(Wanted {
        count: DEEPEST_LEVEL,
        indices,
    })
}
