// For each record, the domain whose member owns it: a table that the tests of a state read.
ghost use Rattle.std.specs.Prelude.{◌<◌, ◌≤◌};
ghost use Rattle.model.specs.Trees.{tree_of};
ghost use Rattle.refusals.specs.OfRuns.Tables.{Owners};

use model::TreeWords;

// The homes of the threads and the parents of the domains, at their records.
// Kept: 255, not None, means that no member owns the record; many bytes of the table are compared at once.
pub(crate) fn owners_of(tree: &TreeWords) -> [u8; 320]
    requires { (0 < tree.now.domains) × (tree.now.domains ≤ 64) × (tree.now.threads ≤ 256) }
    ensures { Owners (tree_of tree.now) result }
{
    let threads = tree.threads as usize;
    let domains = tree.domains as usize;
    let mut owners = [255u8; 320];
    owners[..threads].copy_from_slice(&tree.homes[..threads]);
    owners[257..256 + domains].copy_from_slice(&tree.parents[1..domains]);
    owners
}
