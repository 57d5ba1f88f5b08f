// A thread's path, from its home up to the root: the search for a domain's child on it, and the record that the thread uses at a domain.
ghost use Rattle.std.specs.Prelude.{◌≡◌, ◌<◌, ◌≤◌};
ghost use Rattle.model.specs.Search.{search_from};
ghost use Rattle.refusals.specs.Arrays.{parents_in, Lower};
ghost use Rattle.refusals.specs.Paths.Records.{own_record_in};

use model::{Found, TreeWords};

// The search for a domain's child on the path from a home up, level by level: it stops as soon as it has the child, and reports how many domains it looked at.
pub fn search_at(tree: &TreeWords, home: u8, l: u8) -> Found
    requires domains_bound { tree.now.domains ≤ 64 }
    requires lower { Lower tree.now.domains tree.now.parents }
    requires home_lt_domains { home < tree.now.domains }
    ensures value { result ≡ search_from 6 (parents_in tree.now.domains tree.now.parents) l home 0 }
    ensures child_bound { result.child < 64 }
{
    let mut c = home;
    let mut looked: u32 = 0;
    // Kept: the loop yields the child by `break`, the form that docs/DECISIONS.md and docs/SPEC-MAP.md say.
    let child = loop {
        if looked == 6 {
            break c;
        }
        looked += 1;
        if c == 0 {
            break c;
        }
        let parent = tree.parents[c as usize];
        if parent == l {
            break c;
        }
        c = parent;
    };
    Found { child, looked }
}

// The record that a thread uses at a domain: its own at home, that of the domain's child above.
pub fn record_at(tree: &TreeWords, i: u16, home: u8, l: u8) -> u16
    requires domains_bound { (tree.now.domains ≤ 64) × (i < 256) }
    requires lower { Lower tree.now.domains tree.now.parents }
    requires home_lt_domains { home < tree.now.domains }
    ensures { (result ≡ own_record_in (parents_in tree.now.domains tree.now.parents) i home l) × (result < 320) }
{
    if l == home {
        return i;
    }
    256 + u16::from(search_at(tree, home, l).child)
}
