// Where a thread is: the domain of its place, and the record that it uses there.
ghost use Rattle.std.specs.Prelude.{◌≡◌, ◌<◌};
ghost use Rattle.rows.specs.Common.Counting.{taken_in};
ghost use Rattle.rows.specs.Common.Standing.{LeadsUp, MemberOf};

pub mod counting;
pub mod places;
pub mod rows;

use model::TreeWords;

// A thread as a member of a domain on its path: its home, the domain, the domain's child on its path, which is 0 at home, and its record there.
#[derive(Clone, Copy)]
pub struct Member {
    pub home: u8,
    pub domain: u8,
    pub child: u8,
    pub own: u16,
}

// The child domain whose record a thread uses at a domain; 0 if it uses its own record.
pub fn taken_at(tree: &TreeWords, home: u8, l: u8) -> u8
    requires leads_up { LeadsUp tree.now }
    requires home_lt_domains { home < tree.now.domains }
    ensures value { result ≡ taken_in tree.now.domains tree.now.parents home l }
    ensures upper_bound { result < 64 }
{
    if l == home {
        return 0;
    }
    refusals::paths::search_at(tree, home, l).child
}

// A thread as a member of a domain: with its own record at home, with that of the domain's child above.
pub fn member_at(tree: &TreeWords, i: u16, home: u8, l: u8) -> Member
    requires leads_up { LeadsUp tree.now }
    requires i_bound { (i < 256) × ((home < tree.now.domains) × (l < tree.now.domains)) }
    ensures { MemberOf tree.now.domains tree.now.parents i home l result }
{
    let child = taken_at(tree, home, l);
    let own = if l == home { i } else { 256 + u16::from(child) };
    Member {
        home,
        domain: l,
        child,
        own,
    }
}
