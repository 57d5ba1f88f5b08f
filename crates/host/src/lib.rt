// What a C or C++ host calls; host/include/hmcs.h declares it. Only numbers, and arrays and structs of numbers, are passed.
#![tactic(auto)]

ghost use Rattle.std.specs.Prelude.{◌≡◌};
ghost use Rattle.bounds.specs.Answers.{allowances_answer, allowances_left, rounds_answer, wait_bounds_answer, wait_bounds_left};
ghost use Rattle.chain.specs.Answers.{chain_answer, buffer_answer};
ghost use Rattle.model.specs.Answers.{fresh_answer, step_answer, run_answer, trace_answer};
ghost use Rattle.host.specs.Answers.{answer_of};
ghost use Rattle.host.specs.Versions.{version_number, struct_sizes};
ghost use Rattle.refusals.specs.Reasons.{refusal_of};
ghost use Rattle.host.specs.InPlace.{fresh_left, fresh_without_state, step_without_state};
ghost use Rattle.lock_file.specs.FileAnswers.FileAnswers.{file_answer, output_answer};
ghost use Rattle.lock_file.specs.FileWriter.Answers.{write_answer, file_buffer_answer};
ghost use Rattle.journal.specs.Answers.{journal_answer};
ghost use Rattle.kinds.specs.Answers.{kinds_answer, kinds_trace, kinds_rows};
ghost use Rattle.lock_file.specs.Answers.{read_answer, schedule_answer};
ghost use Rattle.rate.specs.Answers.{rate_answer, reply_of};
ghost use Rattle.schedules.specs.Answers.{many_reply, rows_answer};
ghost use Rattle.refusals.specs.StateCheck.Answers.{check_answer};
ghost use Rattle.journal.specs.StepCheck.Answers.{steps_answer};
ghost use Rattle.text_tree.specs.Answers.{text_answer};
ghost use Rattle.waits.specs.Answers.{waits_answer, waits_trace, waits_rows, waits_on_answer, waits_on_trace, waits_on_rows, waits_on_under_way};

use bounds::RoundsReply;
use journal::JournalReply;
use journal::step_check::StepsReply;
use kinds::KindsReply;
use lock_file::ReadReply;
use model::{FreshReply, LockState, RunReply, StepReply, TreeWords};
use rate::{PassingTimes, RateReply};
use refusals::reasons::Refusal;
use schedules::ManyReply;
use text_tree::TextReply;
use waits::WaitsReply;

// The number and place of an answer.
#[repr(C)]
#[derive(Clone, Copy)]
pub struct Answer {
    pub number: u32,
    pub place: u32,
}

// The number and place of a step's answer, its kind and its domain; if refused, kind 0 and domain 0.
#[repr(C)]
#[derive(Clone, Copy)]
pub struct StepAnswer {
    pub number: u32,
    pub place: u32,
    pub kind: u32,
    pub domain: u32,
}

// A fresh lock: a fresh state, whether accepted or refused. The counters of a ticket root begin at the given start.
#[unsafe(no_mangle)]
pub extern "C" fn hmcs_fresh(tree: TreeWords, start: u16) -> FreshReply
    ensures { result ≡ fresh_answer tree start }
{
    lock::fresh_lock(&tree, start)
}

// One step by value: its kind, its domain and the state after it; if refused, kind 0, domain 0 and the state unchanged.
#[unsafe(no_mangle)]
pub extern "C" fn hmcs_step(tree: TreeWords, state: LockState, thread: u16) -> StepReply
    ensures { result ≡ step_answer tree state thread }
{
    lock::step_lock(&tree, state, thread)
}

// A run by value: the entering threads at the front of the trace; if refused, state and trace are unchanged.
#[unsafe(no_mangle)]
pub extern "C" fn hmcs_run(
    tree: TreeWords,
    state: LockState,
    schedule: &[u16],
    trace: &mut [u16],
) -> RunReply
    ensures value { result ≡ run_answer tree state schedule.now trace.old }
    ensures trace_after { trace.new ≡ trace_answer tree state schedule.now trace.old }
{
    lock::run_lock(&tree, state, schedule, trace)
}

// Kept: `From` cannot be implemented here, since both types are other crates'.
// The number and place of what the tests found.
#[tactic(auto, unfolding(model::specs::Refusals::accepted, model::specs::Refusals::refusal))]
fn answered(tested: Result<(), Refusal>) -> Answer
    ensures { result ≡ answer_of (refusal_of tested) }
{
    match tested {
        Ok(()) => Answer {
            number: 0,
            place: 0,
        },
        Err(refusal) => Answer {
            number: refusal.number(),
            place: refusal.place,
        },
    }
}

// A fresh lock, written to the state that the host keeps; if refused, the state is unchanged.
#[unsafe(no_mangle)]
pub extern "C" fn hmcs_fresh_in_place(tree: TreeWords, state: &mut LockState, start: u16) -> Answer
    ensures { (result ≡ fresh_without_state (fresh_answer tree start)) × (state.new ≡ fresh_left (fresh_answer tree start) state.old) }
{
    let fresh = lock::fresh_lock(&tree, start);
    if fresh.number == 0 {
        *state = fresh.state;
    }
    Answer {
        number: fresh.number,
        place: fresh.place,
    }
}

// One step in place, on the state that the host keeps.
#[unsafe(no_mangle)]
pub extern "C" fn hmcs_step_in_place(
    tree: TreeWords,
    state: &mut LockState,
    thread: u16,
) -> StepAnswer
    ensures { (result ≡ step_without_state (step_answer tree state.old thread)) × (state.new ≡ (step_answer tree state.old thread).state) }
{
    match lock::step_in_place(&tree, state, thread) {
        Ok(step) => StepAnswer {
            number: 0,
            place: 0,
            kind: u32::from(step.kind.number()),
            domain: step.domain,
        },
        Err(refusal) => StepAnswer {
            number: refusal.number(),
            place: refusal.place,
            kind: 0,
            domain: 0,
        },
    }
}

// The file call on the bytes of the file and the output buffer. It returns the number; place and length go to the host's pointers.
#[unsafe(no_mangle)]
pub extern "C" fn hmcs_run_file(
    file: &[u8],
    output: &mut [u8],
    place: &mut u32,
    length: &mut u32,
) -> u32
    ensures value { result ≡ (file_answer file.now output.old).number }
    ensures place_after { place.new ≡ (file_answer file.now output.old).place }
    ensures length_after { length.new ≡ (file_answer file.now output.old).length }
    ensures output_after { output.new ≡ output_answer file.now output.old }
{
    let r = file_calls::running::run_file(file, output);
    *place = r.place;
    *length = r.length;
    r.number
}

// Reads a lock file without running it: number and place, the number of schedule entries, and the tree; the schedule goes to the front of the buffer. If refused, or if the buffer is too short, it is unchanged.
#[unsafe(no_mangle)]
pub extern "C" fn hmcs_read_file(file: &[u8], schedule: &mut [u16]) -> ReadReply
    ensures value { result ≡ read_answer file.now }
    ensures schedule_after { schedule.new ≡ schedule_answer file.now schedule.old }
{
    lock_file::read_file(file, schedule)
}

// Writes the shortest lock file of a tree and a schedule to the front of the buffer; if refused, the buffer is unchanged. It returns the number; place and length go to the host's pointers.
#[unsafe(no_mangle)]
pub extern "C" fn hmcs_write_file(
    tree: TreeWords,
    schedule: &[u16],
    file: &mut [u8],
    place: &mut u32,
    length: &mut u32,
) -> u32
    ensures value { result ≡ (write_answer tree schedule.now file.old).number }
    ensures place_after { place.new ≡ (write_answer tree schedule.now file.old).place }
    ensures length_after { length.new ≡ (write_answer tree schedule.now file.old).length }
    ensures file_after { file.new ≡ file_buffer_answer tree schedule.now file.old }
{
    let r = file_calls::writing::write_file(&tree, schedule, file);
    *place = r.place;
    *length = r.length;
    r.number
}

// The rate of a busy three-level lock from its thresholds and its passing times: number, place and rate; if refused, the rate is 0.
#[unsafe(no_mangle)]
pub extern "C" fn hmcs_rate(h1: u16, h2: u16, times: PassingTimes) -> RateReply
    ensures { result ≡ reply_of (rate_answer h1 h2 times) }
{
    rate::reply(rate::RateAnswer::from(rate::rate(h1, h2, times)))
}

// A tree from its text.
#[unsafe(no_mangle)]
pub extern "C" fn hmcs_read_text(text: &[u8]) -> TextReply
    ensures { result ≡ text_answer text.now }
{
    text_tree_call::read_text(text)
}

// Many schedules on one tree, whose entries follow one another, each run from its own fresh lock: a row of eight numbers for each at the front of the rows; if the whole call is refused, the rows are unchanged.
#[unsafe(no_mangle)]
pub extern "C" fn hmcs_run_many(
    tree: TreeWords,
    lengths: &[u32],
    entries: &[u16],
    rows: &mut [u32],
) -> ManyReply
    ensures value { result ≡ many_reply tree lengths.now entries.now rows.old }
    ensures rows_after { rows.new ≡ rows_answer tree lengths.now entries.now rows.old }
{
    runs_call::many_schedules::run_many(&tree, lengths, entries, rows)
}

// The check of a journal: 0 if its threads, stepped one after another from a fresh lock, take steps of its kinds; else the number and the first byte of the first refused entry.
#[unsafe(no_mangle)]
pub extern "C" fn hmcs_check_journal(tree: TreeWords, journal: &[u8]) -> JournalReply
    ensures { result ≡ journal_answer tree journal.now }
{
    journal_call::check_journal(&tree, journal)
}

// The check of steps named by thread, kind and domain, from a state: the number that refuses the first wrong one and its position, how many come before it and the state after those; if accepted, the state after the last.
#[unsafe(no_mangle)]
pub extern "C" fn hmcs_check_steps(
    tree: TreeWords,
    state: LockState,
    threads: &[u16],
    kinds: &[u16],
    domains: &[u16],
) -> StepsReply
    ensures { result ≡ steps_answer tree state threads.now kinds.now domains.now }
{
    journal_call::step_check::check_steps(&tree, state, threads, kinds, domains)
}

// A run that also writes the waits of each thread's attempts and of all together to its own row buffer; if refused, trace and rows are unchanged.
#[unsafe(no_mangle)]
pub extern "C" fn hmcs_run_waits(
    tree: TreeWords,
    state: LockState,
    schedule: &[u16],
    trace: &mut [u16],
    rows: &mut [u64],
) -> WaitsReply
    ensures value { result ≡ waits_answer tree state schedule.now trace.old rows.old }
    ensures trace_after { trace.new ≡ waits_trace tree state schedule.now trace.old rows.old }
    ensures rows_after { rows.new ≡ waits_rows tree state schedule.now trace.old rows.old }
{
    runs_call::with_waits::run_waits(&tree, state, schedule, trace, rows)
}

// The same for a run that continues the attempts under way; their numbers are replaced by those after the run; if refused, trace, rows and numbers are unchanged.
#[unsafe(no_mangle)]
pub extern "C" fn hmcs_run_waits_on(
    tree: TreeWords,
    state: LockState,
    schedule: &[u16],
    trace: &mut [u16],
    rows: &mut [u64],
    under_way: &mut [u64; 256],
) -> WaitsReply
    ensures value { result ≡ waits_on_answer tree state schedule.now trace.old rows.old under_way.old }
    ensures trace_after { trace.new ≡ waits_on_trace tree state schedule.now trace.old rows.old under_way.old }
    ensures rows_after { rows.new ≡ waits_on_rows tree state schedule.now trace.old rows.old under_way.old }
    ensures under_way_after { under_way.new ≡ waits_on_under_way tree state schedule.now trace.old rows.old under_way.old }
{
    runs_call::with_waits::run_waits_on(&tree, state, schedule, trace, rows, under_way)
}

// A run that also writes two numbers per step to its own buffer, the kind and the domain; if refused, trace and rows are unchanged.
#[unsafe(no_mangle)]
pub extern "C" fn hmcs_run_kinds(
    tree: TreeWords,
    state: LockState,
    schedule: &[u16],
    trace: &mut [u16],
    rows: &mut [u16],
) -> KindsReply
    ensures value { result ≡ kinds_answer tree state schedule.now trace.old rows.old }
    ensures trace_after { trace.new ≡ kinds_trace tree state schedule.now trace.old rows.old }
    ensures rows_after { rows.new ≡ kinds_rows tree state schedule.now trace.old rows.old }
{
    runs_call::with_kinds::run_kinds(&tree, state, schedule, trace, rows)
}

// The check of a state that a host has kept: what refuses it, 4 to 9, 16 or 10; 0 and 0 if every call accepts it.
#[unsafe(no_mangle)]
pub extern "C" fn hmcs_check_state(tree: TreeWords, state: LockState) -> Answer
    ensures { result ≡ answer_of (check_answer tree state) }
{
    answered(refusals::state_check::check_state(&tree, &state))
}

// The chain of threads that a thread waits for, starting with itself, at the front of the chain buffer; if refused, the buffer is unchanged. It returns the number; place and length go to the host's pointers.
#[unsafe(no_mangle)]
pub extern "C" fn hmcs_chain(
    tree: TreeWords,
    state: LockState,
    thread: u16,
    chain: &mut [u16],
    place: &mut u32,
    length: &mut u32,
) -> u32
    ensures value { result ≡ (chain_answer tree state thread chain.old).number }
    ensures place_after { place.new ≡ (chain_answer tree state thread chain.old).place }
    ensures length_after { length.new ≡ (chain_answer tree state thread chain.old).length }
    ensures chain_after { chain.new ≡ buffer_answer tree state thread chain.old }
{
    let reply = chain_call::chain(&tree, &state, thread, chain);
    *place = reply.place;
    *length = reply.length;
    reply.number
}

// The allowances of the domains other than the root, each capped at the largest 64-bit number, and 0 elsewhere; if refused, the buffer is unchanged.
#[unsafe(no_mangle)]
pub extern "C" fn hmcs_allowances(tree: TreeWords, allowances: &mut [u64; 64]) -> Answer
    ensures value { result ≡ answer_of (allowances_answer tree) }
    ensures allowances_after { allowances.new ≡ allowances_left tree allowances.old }
{
    answered(bounds_call::allowances(&tree, allowances))
}

// In how many rounds of any fair schedule every thread enters, and how many turns these are in round robin.
#[unsafe(no_mangle)]
pub extern "C" fn hmcs_rounds(tree: TreeWords) -> RoundsReply
    ensures { result ≡ rounds_answer tree }
{
    bounds_call::rounds(&tree)
}

// The longest wait of each thread while nobody stalls, in entries of others, capped at the largest 64-bit number, and 0 in unused slots; if refused, the buffer is unchanged.
#[unsafe(no_mangle)]
pub extern "C" fn hmcs_wait_bounds(tree: TreeWords, bounds: &mut [u64; 256]) -> Answer
    ensures value { result ≡ answer_of (wait_bounds_answer tree) }
    ensures bounds_after { bounds.new ≡ wait_bounds_left tree bounds.old }
{
    answered(bounds_call::wait_bounds::wait_bounds(&tree, bounds))
}

// The version of the library, for a host compiled with another version of the header.
#[unsafe(no_mangle)]
pub extern "C" fn hmcs_version() -> u32
    ensures { result ≡ version_number }
{
    30000
}

// The size in bytes of each struct of the header, as in the library.
#[unsafe(no_mangle)]
pub extern "C" fn hmcs_sizes(sizes: &mut [u32; 32])
    ensures { sizes.new ≡ struct_sizes }
{
    *sizes = [
        460u32, 7944, 8, 16, 7952, 7960, 7976, 7984, 16, 24, 16, 472, 480, 24, 16, 7984, 7968, 0,
        0, 0, 0, 0, 0, 0, 0, 0, 0, 0, 0, 0, 0, 0,
    ];
}
