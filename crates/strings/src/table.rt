// All entries of a table.
ghost use Rattle.std.specs.Prelude.{◌≡◌, true};
ghost use Rattle.verdict.specs.Checks.{first_fault};
ghost use Rattle.verdict.specs.inner.Gives.{Gives};
ghost use Rattle.verdict.specs.inner.Tells.{Sure};
ghost use Rattle.verdict.specs.Verdict.{Accepted};
ghost use Rattle.strings.specs.Order.{entry_checks, all_entry_checks};
ghost use Rattle.strings.specs.inner.Begins.{Begun, AllBegun};
ghost use Rattle.strings.specs.inner.Ahead.{Prefetched};
ghost use Rattle.strings.specs.inner.Held.{Here};
ghost use Rattle.strings.specs.inner.Lent.{lent_table};

use crate::ahead::PrefetchedText;
use crate::apart::Span;
use crate::{StringTable, ahead, apart, entry, fields, listed};
use hash::HashTables;
use verdict::Refusal;

// Whether the text of entry j of bucket k, which passed, stands where one can begin; and so do those before it.
fn still_begun(table: &StringTable, k: usize, j: usize, g: PrefetchedText, before: bool) -> bool
    requires { Here (lent_table table.now) k j × (first_fault (entry_checks (lent_table table.now) k j) ≡ Accepted) × Prefetched (lent_table table.now) k j g.spot g.seen }
    ensures { Sure ((before ≡ true) × Begun (lent_table table.now) k j) result }
{
    if !before {
        return false;
    }
    let e = entry::entry_at(table, k, j);
    ahead::can_begin(fields::element(table.file, e), g.seen)
}

// Refusals 7 to 12 of every entry, up to the first fault; where there is none, whether their texts are known to stand where texts can begin.
pub fn check_entries(table: &StringTable, t: &HashTables) -> Result<bool, Refusal>
    ensures { Gives (first_fault (all_entry_checks (lent_table table.now))) (Sure (AllBegun (lent_table table.now))) result }
{
    let right = listed::all_listed(table);
    let mut spots = [None; 64];
    let mut seen = [0usize; 64];
    let mut begun = true;
    let mut answer = Ok(());
    // The labelled loops are left with the first fault, as the customer asked for this place.
    'buckets: for k in 0..table.buckets.len() {
        let n = entry::entry_count(table, k);
        let mut span = Span { start: 0, end: 0 };
        for j in 0..n {
            ahead::keep_ahead(table, k, n, j, &mut spots, &mut seen);
            span = apart::span_at(table, k, n, j, span);
            let i = j % 64;
            let g = PrefetchedText {
                spot: spots[i],
                seen: seen[i],
                from: apart::away_from(span, j),
            };
            answer = entry::check_entry(table, t, k, j, g, right);
            if answer.is_err() {
                break 'buckets;
            }
            begun = still_begun(table, k, j, g, begun);
        }
    }
    answer?;
    Ok(begun)
}
