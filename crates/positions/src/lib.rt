// Refusal 13, and all of 7 to 13 of a string table (FORMAT, "Refusals").
#![tactic(auto)]

ghost use Rattle.std.specs.Prelude.{◌≡◌, ◌<◌, ◌^◌};
ghost use Rattle.verdict.specs.Checks.{first_fault};
ghost use Rattle.verdict.specs.inner.Gives.{Gives};
ghost use Rattle.verdict.specs.inner.Tells.{Sure};
ghost use Rattle.verdict.specs.Verdict.{Accepted, answer_of};
ghost use Rattle.strings.specs.Order.{all_entry_checks, all_position_checks, string_checks};
ghost use Rattle.strings.specs.inner.Lent.{lent_table};
ghost use Rattle.positions.specs.inner.Total.{all_entries};
ghost use Rattle.positions.specs.inner.Packed.{Packed};

mod packing;
mod uncarried;

use hash::HashTables;
use layout::{BUCKET_COUNT_SIZE, ENTRY_SIZE};
use strings::{StringTable, entry, table};
use verdict::{Refusal, Rule};

// The number of entries of all buckets, by the bytes that they take: from the first bucket's start up to the address
// count there are only the buckets' counts and their entries.
fn entry_total(table: &StringTable) -> usize
    ensures { (result ≡ all_entries (lent_table table.now)) × (result < 2 ^ 32) }
{
    (table.parts.list - le::wide(table.buckets[0]) - BUCKET_COUNT_SIZE * table.buckets.len())
        / ENTRY_SIZE
}

// Refusal 13 of every list position, where the entries passed 7 to 12.
fn check_positions(table: &StringTable) -> Result<(), Refusal>
    requires { first_fault (all_entry_checks (lent_table table.now)) ≡ Accepted }
    ensures { answer_of result ≡ first_fault (all_position_checks (lent_table table.now)) }
{
    let n = le::u32_at(table.file, table.parts.list);
    // No two entries carry one index: they would bear one text, and 12 refuses that. So where there are as many entries
    // as list positions, each position is carried, and none has to be looked for.
    if n <= entry_total(table) + 1 {
        return Ok(());
    }
    let i = uncarried::first_uncarried(table, n);
    Err(Refusal(Rule::ListPosition, entry::position_at(table, i)))
}

// Refusals 7 to 13 of a table, up to the first fault; where there is none, whether its texts are known to fill its characters.
pub fn check_table(table: &StringTable, t: &HashTables) -> Result<bool, Refusal>
    ensures { Gives (first_fault (string_checks (lent_table table.now))) (Sure (Packed (lent_table table.now))) result }
{
    let begun = table::check_entries(table, t)?;
    check_positions(table)?;
    Ok(packing::is_packed(table, begun))
}
