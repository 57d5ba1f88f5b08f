// The counters of a given state.
ghost use Rattle.std.specs.Prelude.{◌≡◌, ◌<◌};
ghost use Rattle.model.specs.Trees.{tree_of};
ghost use Rattle.model.specs.Counters.{good_count, good_counts};
ghost use Rattle.refusals.specs.OfRuns.Counts.{zeros_in, count_in};

use crate::of_runs::MOST_COUNTED;
use model::{Counters, TreeWords};

fn are_zeros(entries: u64, tenures: u64, longest: u64) -> bool
    ensures { result ≡ zeros_in entries tenures longest }
{
    entries == 0 && tenures == 0 && longest == 0
}

// The counters of a domain, by their values; those of the root and of unused slots are 0.
fn count_fits(
    domains: u32,
    d: u32,
    threshold: u16,
    entries: u64,
    tenures: u64,
    longest: u64,
) -> bool
    ensures { result ≡ count_in domains d threshold entries tenures longest }
{
    if d == 0 || domains <= d {
        return are_zeros(entries, tenures, longest);
    }
    entries <= MOST_COUNTED && tenures <= MOST_COUNTED && longest <= u64::from(threshold)
}

fn good_count_at(tree: &TreeWords, counters: &Counters, d: usize) -> bool
    requires { d < 64 }
    ensures { result ≡ good_count (tree_of tree.now) counters.now d }
{
    count_fits(
        tree.domains,
        d as u32,
        tree.thresholds[d],
        counters.entries[d],
        counters.tenures[d],
        counters.longest[d],
    )
}

// Whether all counters are good.
pub(crate) fn good_counts(tree: &TreeWords, counters: &Counters) -> bool
    ensures { result ≡ good_counts (tree_of tree.now) counters.now }
{
    (0..64).all(|d| good_count_at(tree, counters, d))
}
