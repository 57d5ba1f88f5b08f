// The rounds in which every thread enters.
ghost use Rattle.std.specs.Prelude.{◌≡◌, cond, ◌+◌, ◌<◌, ◌≤◌};
ghost use Rattle.model.specs.Trees.{tree_of};
ghost use Rattle.bounds.specs.StarvationFreedom.Bounds.{levels, tenure_length, acquire_bound, release_bound, everyone_bound};
ghost use Rattle.bounds.specs.Answers.{capped};
ghost use Rattle.bounds_call.specs.Arrays.{rounds_above, Acquires, RoundsAbove};

use crate::accepted_tree;
use crate::members::{Members, effective_of, tenures_of};

#[derive(Clone, Copy)]
pub(crate) struct Rounds<'a> {
    members: Members<'a>,
    // How many levels the tree has.
    deepest: u64,
    ghost deepest_value: { deepest ≡ levels (tree_of members.tree.words.now) },
    ghost few: { deepest ≤ 6 },
}

impl<'a> Rounds<'a> {
    pub(crate) fn of(members: Members<'a>) -> Rounds<'a>
        ensures { result.members.tree.words.now ≡ members.entry.tree.words.now }
    {
        let deepest = accepted_tree::levels(&members.tree);
        Rounds { members, deepest }
    }

    // How many members of a domain have the lock one after another before the domains above are released.
    fn tenure_length(&self, d: usize) -> u16
        requires { d < self.now.members.tree.words.now.domains }
        ensures { (result ≡ tenure_length (tree_of self.now.members.tree.words.now) d) × (0 < result) }
    {
        if d == 0 {
            return 1;
        }
        effective_of(
            accepted_tree::threshold(&self.members.tree, d),
            self.members.counts[d],
        )
    }

    // The rounds of a member from its domain to Inside, given those above the domain and the passes of its other members.
    fn acquire(&self, d: usize, above: u64, passes: u64) -> u64
        requires { d < self.now.members.tree.words.now.domains }
        ensures { Acquires (tree_of self.now.members.tree.words.now) d above passes result }
    {
        let level = accepted_tree::level(&self.members.tree, d);
        let length = self.tenure_length(d);
        let members = self.members.counts[d];
        let all = tenures_of(members, length);
        let others = tenures_of(members.saturating_sub(1), length);
        // The round for the links, if the lock is passed on.
        let links = u64::from(1 < length);
        let acquired = links.saturating_add(all.saturating_mul(above));
        let released = acquired.saturating_add(others.saturating_mul(5 * level));
        let standing = released.saturating_add((2 + self.deepest).saturating_mul(passes));
        3u64.saturating_add(standing)
    }

    // The rounds above a domain: at the root the one that enters, elsewhere those of its own record in its parent.
    fn rounds_above(&self, above: &[u64; 64], d: usize) -> u64
        requires d_lt_domains { d < self.now.members.tree.words.now.domains }
        requires rounds_above { RoundsAbove (tree_of self.now.members.tree.words.now) d above.now }
        ensures { result ≡ capped (rounds_above (tree_of self.now.members.tree.words.now) d) }
    {
        if d == 0 {
            return 1;
        }
        let parent = usize::from(self.members.tree.words.parents[d]);
        self.acquire(parent, above[parent], self.members.others[256 + d])
    }

    // The rounds above every domain. A parent's number is lower, so the root comes first.
    // Kept: the loop of `all_added_above` once more; a function of both would take a closure, with a contract longer than the loop.
    fn all_rounds_above(&self) -> [u64; 64]
        ensures { RoundsAbove (tree_of self.now.members.tree.words.now) self.now.members.tree.words.now.domains result }
    {
        let mut above = [0; 64];
        for d in 0..self.members.tree.words.domains as usize {
            above[d] = self.rounds_above(&above, d);
        }
        above
    }

    // The rounds in which one thread enters: those of its acquisition and of a release.
    fn thread(&self, above: &[u64; 64], i: usize) -> u64
        requires i_lt_threads { i < self.now.members.tree.words.now.threads }
        requires rounds_above { RoundsAbove (tree_of self.now.members.tree.words.now) self.now.members.tree.words.now.domains above.now }
        ensures { result ≡ capped (acquire_bound (tree_of self.now.members.tree.words.now) i + release_bound (tree_of self.now.members.tree.words.now) i) }
    {
        let home = usize::from(self.members.tree.words.homes[i]);
        let level = accepted_tree::level(&self.members.tree, home);
        let acquired = self.acquire(home, above[home], self.members.others[i]);
        acquired.saturating_add(6 * level)
    }

    // The rounds in which every thread enters.
    pub(crate) fn everyone(&self) -> u64
        ensures { result ≡ capped (everyone_bound (tree_of self.now.members.tree.words.now)) }
    {
        let above = self.all_rounds_above();
        let mut most: u64 = 0;
        for i in 0..self.members.tree.words.threads as usize {
            most = most.max(self.thread(&above, i));
        }
        most
    }
}
