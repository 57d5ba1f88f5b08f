// The three calls on a lock: each answers as the model says, for every input. A step and a run take the state by value, or step the state that the caller keeps.
#![tactic(auto)]

pub mod steps;

ghost use Rattle.std.specs.Prelude.{◌≡◌, IfOk, length};
ghost use Rattle.model.specs.Trees.{tree_of};
ghost use Rattle.model.specs.Refusals.{refusal, step_refusal, run_refusal};
ghost use Rattle.model.specs.Answers.{fresh_answer, step_answer, run_answer, trace_answer};
ghost use Rattle.refusals.specs.Reasons.{refusal_of};
ghost use Rattle.lock.specs.Lent.{TakenIs};
ghost use Rattle.lock.specs.Steps.Running.{first_number};

mod lent;

use model::{Counts, FreshReply, LockState, RunReply, StepReply, TreeWords};
use refusals::reasons::Refusal;
use rows::kinds::Kind;
use steps::run;

// The kind and domain of a step.
#[derive(Clone, Copy, PartialEq, Eq, Debug)]
pub struct TakenStep {
    pub kind: Kind,
    pub domain: u32,
}

// The number at which the counters of a ticket lock start: the given one at a ticket root that is not refused, else 0.
fn first_of(number: u32, ticket_root: u32, start: u16) -> u16
    ensures { result ≡ first_number number ticket_root start }
{
    if number == 0 && ticket_root != 0 {
        start
    } else {
        0
    }
}

// Number and place of what the tests of a tree found.
#[tactic(auto, unfolding(model::specs::Refusals::accepted, model::specs::Refusals::refusal))]
fn numbers_of(tested: Result<(), Refusal>) -> (u32, u32)
    ensures { refusal result.0 result.1 ≡ refusal_of tested }
{
    match tested {
        Ok(()) => (0, 0),
        Err(refusal) => (refusal.number(), refusal.place),
    }
}

// A fresh lock: a fresh state, whether accepted or refused.
pub fn fresh_lock(tree: &TreeWords, start: u16) -> FreshReply
    ensures { result ≡ fresh_answer tree.now start }
{
    let (number, place) = numbers_of(refusals::tree_refusal_of(tree));
    let first = first_of(number, tree.ticket_root, start);
    FreshReply {
        number,
        place,
        state: steps::fresh(first),
    }
}

// One step of a thread on the state that the caller keeps: its kind and its domain; if refused, the state is unchanged.
pub fn step_in_place(
    tree: &TreeWords,
    state: &mut LockState,
    thread: u16,
) -> Result<TakenStep, Refusal>
    ensures refused { refusal_of result ≡ step_refusal (tree_of tree.now) state.old thread }
    ensures taken { IfOk result (λ r. TakenIs r (tree_of tree.now) state.old.words thread) }
    ensures state_after { state.new ≡ (step_answer tree.now state.old thread).state }
{
    let mut trace = [0u16];
    let mut codes = [0u16];
    lent::run_tested(tree, state, &[thread], &mut trace, &mut codes)?;
    let home = u16::from(tree.homes[usize::from(thread)]);
    Ok(TakenStep {
        kind: run::kind_of_code(codes[0]),
        domain: u32::from(run::domain_of_code(home, codes[0])),
    })
}

// The steps of a schedule on the state that the caller keeps: the counts, with the entering threads at the front of the trace; if refused, state and trace are unchanged.
pub fn run_in_place(
    tree: &TreeWords,
    state: &mut LockState,
    schedule: &[u16],
    trace: &mut [u16],
) -> Result<Counts, Refusal>
    ensures refused { refusal_of result ≡ run_refusal (tree_of tree.now) state.old schedule.now (length trace.old) }
    ensures counts { IfOk result (λ counts. counts ≡ (run_answer tree.now state.old schedule.now trace.old).counts) }
    ensures state_after { state.new ≡ (run_answer tree.now state.old schedule.now trace.old).state }
    ensures trace_after { trace.new ≡ trace_answer tree.now state.old schedule.now trace.old }
{
    lent::run_tested(tree, state, schedule, trace, &mut [])
}

// One step of a thread: its kind, its domain and the state after it; if refused, kind 0, domain 0 and the state unchanged.
pub fn step_lock(tree: &TreeWords, state: LockState, thread: u16) -> StepReply
    ensures { result ≡ step_answer tree.now state thread }
{
    let mut reply = StepReply {
        number: 0,
        place: 0,
        kind: 0,
        domain: 0,
        state,
    };
    match step_in_place(tree, &mut reply.state, thread) {
        Ok(step) => {
            reply.kind = u32::from(step.kind.number());
            reply.domain = step.domain;
        }
        Err(refusal) => {
            reply.number = refusal.number();
            reply.place = refusal.place;
        }
    }
    reply
}

// The steps of a schedule: the state after the last step and the counts, with the entering threads at the front of the trace; if refused, state and trace are unchanged.
pub fn run_lock(tree: &TreeWords, state: LockState, schedule: &[u16], trace: &mut [u16]) -> RunReply
    ensures value { result ≡ run_answer tree.now state schedule.now trace.old }
    ensures trace_after { trace.new ≡ trace_answer tree.now state schedule.now trace.old }
{
    let mut left = state;
    match run_in_place(tree, &mut left, schedule, trace) {
        Ok(counts) => RunReply {
            number: 0,
            place: 0,
            counts,
            state: left,
        },
        Err(refusal) => steps::refused(refusal.number(), refusal.place, left),
    }
}
