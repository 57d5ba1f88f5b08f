// The refusals of trees and of schedules, numbers 4 to 9, 16 and 11 to 13; each test looks at everything before the next test.
#![tactic(auto)]

pub mod accepted_tree;
pub mod of_runs;
pub mod paths;
pub mod reasons;
pub mod state_check;

ghost use Rattle.std.specs.Prelude.{◌≡◌, IfOk, length};
ghost use Rattle.model.specs.Trees.{tree_of};
ghost use Rattle.model.specs.Refusals.{first_refusal, count_tests, domain_tests, tree_refusal, bad_entry};
ghost use Rattle.refusals.specs.Arrays.{threads_in, shape_tests, schedule_room_tests};
ghost use Rattle.refusals.specs.Lowest.{FindsLowest};
ghost use Rattle.refusals.specs.Reasons.{refusal_of};

mod trees;

use model::TreeWords;
use reasons::{Reason, Refusal};
use trees::CountedTree;

// 4 and 5 for the numbers of domains and threads.
fn counted_tree(tree: &TreeWords) -> Result<CountedTree<'_>, Refusal>
    ensures refused { refusal_of result ≡ first_refusal (count_tests (tree_of tree.now)) }
    ensures words { IfOk result (λ counted. counted.words.now ≡ tree.now) }
{
    if !(1..=64).contains(&tree.domains) {
        return Err(Reason::BadDomains.at(0));
    }
    if !(1..=256).contains(&tree.threads) {
        return Err(Reason::BadThreads.at(0));
    }
    Ok(CountedTree { words: tree })
}

// 6 to 8 for the domains. One pass is enough if none fails.
fn domains_refusal(tree: &CountedTree) -> Result<(), Refusal>
    ensures { refusal_of result ≡ first_refusal (domain_tests (tree_of tree.now.words.now)) }
{
    if trees::domains_pass(tree) {
        return Ok(());
    }
    if let Some(d) = trees::lowest_bad_parent(tree) {
        return Err(Reason::BadParent.at(d));
    }
    if let Some(d) = trees::lowest_too_deep(tree) {
        return Err(Reason::TooDeep.at(d));
    }
    if let Some(d) = trees::lowest_no_threshold(tree) {
        return Err(Reason::NoThreshold.at(d));
    }
    Ok(())
}

// 4 to 8, which do not read homes.
fn shaped_tree(tree: &TreeWords) -> Result<CountedTree<'_>, Refusal>
    ensures refused { refusal_of result ≡ first_refusal (shape_tests (tree_of tree.now)) }
    ensures words { IfOk result (λ counted. counted.words.now ≡ tree.now) }
{
    let counted = counted_tree(tree)?;
    domains_refusal(&counted)?;
    Ok(counted)
}

// The home that 9 refuses, or the domain that 16 refuses, if 4 to 8 refuse nothing.
fn homes_refusal(tree: &CountedTree) -> Result<(), Refusal>
    requires { (first_refusal (shape_tests (tree_of tree.now.words.now))).number ≡ 0 }
    ensures { refusal_of result ≡ tree_refusal (tree_of tree.now.words.now) }
{
    let unfit = trees::unfit_homes(tree);
    if let Some(i) = trees::lowest_bad_home(tree, &unfit) {
        return Err(Reason::BadHome.at(i));
    }
    let occupied = trees::occupied(tree);
    if let Some(d) = trees::lowest_empty(&occupied, tree.words.domains) {
        return Err(Reason::EmptyDomain.at(d));
    }
    Ok(())
}

// 4 to 9 and 16, the tests of a fresh lock. If the homes are exactly the leaves, no home and no domain is searched.
pub fn tree_refusal_of(tree: &TreeWords) -> Result<(), Refusal>
    ensures { refusal_of result ≡ tree_refusal (tree_of tree.now) }
{
    let counted = shaped_tree(tree)?;
    if trees::homes_are_leaves(&counted) {
        return Ok(());
    }
    homes_refusal(&counted)
}

fn lowest_bad_entry(schedule: &[u16], threads: u32) -> Option<usize>
    ensures { FindsLowest (length schedule.now) (bad_entry (threads_in threads) schedule.now) result }
{
    schedule.iter().position(|i| threads <= u32::from(*i))
}

// 11 to 13, the tests of a schedule and of the length of its trace buffer.
pub fn schedule_refusal_of(threads: u32, schedule: &[u16], room: usize) -> Result<(), Refusal>
    ensures { refusal_of result ≡ first_refusal (schedule_room_tests (threads_in threads) schedule.now room) }
{
    if 65536 < schedule.len() {
        return Err(Reason::ScheduleLong.at(0));
    }
    if let Some(k) = lowest_bad_entry(schedule, threads) {
        return Err(Reason::BadEntry.at(k as u32));
    }
    if room < schedule.len() {
        return Err(Reason::TraceShort.at(0));
    }
    Ok(())
}
