// Threads compared with the tree, and named steps with what the run's loop reported. A whole list is compared first, without an early exit, so that the compiler can compare many at once; the first that is wrong is searched only if there is one.
ghost use Rattle.std.specs.Prelude.{◌≡◌, true, cond, ◌%◌, ◌≤◌, ◌<◌, eqb, length, IfSome};
ghost use Rattle.refusals.specs.Lowest.{Lowest, or_end};
ghost use Rattle.refusals.specs.Reasons.{number_of};
ghost use Rattle.journal_call.specs.Kinds.{AllSameKinds};
ghost use Rattle.journal_call.specs.StepCheck.Stretches.{unknown, differs, NoneLarger, HaveHomes, HomesOf, AllSameDomains, AllSame};

use lock::steps::run;
use refusals::reasons::Reason;

// The largest of these threads; 0 if there is none.
fn largest(threads: &[u16]) -> u16
    ensures { NoneLarger threads.now (length threads.now) result }
{
    let mut most = 0;
    for thread in threads {
        most = most.max(*thread);
    }
    most
}

// The first thread that is not in the tree.
pub(crate) fn first_unknown(threads: &[u16], known: u32) -> Option<usize>
    ensures { Lowest (length threads.now) (unknown known threads.now) (or_end result (length threads.now)) }
{
    if u32::from(largest(threads)) < known {
        return None;
    }
    threads
        .iter()
        .position(|thread| known <= u32::from(*thread))
}

// Named steps and what the run's loop reported for them: lists of equal length, of which the threads have homes.
#[derive(Clone, Copy)]
pub(crate) struct Reported<'a> {
    pub threads: &'a [u16],
    pub kinds: &'a [u16],
    pub domains: &'a [u16],
    pub codes: &'a [u16],
    ghost few: { length threads.now ≤ 1024 },
    ghost kinds_long: { length kinds.now ≡ length threads.now },
    ghost domains_long: { length domains.now ≡ length threads.now },
    ghost codes_long: { length codes.now ≡ length threads.now },
    ghost small: { HaveHomes threads.now (length threads.now) },
}

// Kept: alike in `journals` for bytes, as said there.
// Whether all named kinds are those that were reported.
fn all_same_kinds(steps: &Reported) -> bool
    ensures { result ≡ true → AllSameKinds steps.now.kinds.now steps.now.codes.now (length steps.now.threads.now) }
{
    let mut same = true;
    for (kind, code) in steps.kinds.iter().zip(steps.codes) {
        same &= *kind == *code % 8;
    }
    same
}

// The homes of the threads. They are looked up one by one, so that the domains can be compared many at once.
fn homes_of(homes: &[u8; 256], steps: &Reported) -> [u16; 1024]
    ensures { HomesOf homes.now steps.now.threads.now (length steps.now.threads.now) result }
{
    let mut found = [0u16; 1024];
    for (k, thread) in steps.threads.iter().enumerate() {
        found[k] = u16::from(homes[usize::from(*thread)]);
    }
    found
}

// Kept: an index for three slices; with a `zip` of the three the invariant stayed unproved.
// Whether all named domains are those of the steps, given the homes of their threads.
fn all_same_domains(homes: &[u16; 1024], steps: &Reported) -> bool
    ensures { result ≡ true → AllSameDomains homes.now steps.now.domains.now steps.now.codes.now (length steps.now.threads.now) }
{
    let Reported { domains, codes, .. } = *steps;
    let mut same = true;
    for k in 0..steps.threads.len() {
        same &= domains[k] == run::domain_of_code(homes[k], codes[k]);
    }
    same
}

// True only if all named steps have the kinds and domains that were reported.
fn all_same(homes: &[u8; 256], steps: &Reported) -> bool
    ensures { result ≡ true → AllSame homes.now steps.now.threads.now steps.now.kinds.now steps.now.domains.now steps.now.codes.now (length steps.now.threads.now) }
{
    if !all_same_kinds(steps) {
        return false;
    }
    let found = homes_of(homes, steps);
    all_same_domains(&found, steps)
}

// The first named step whose kind or domain is not what the run's loop reported; it is searched only if there is one.
pub(crate) fn first_difference(homes: &[u8; 256], steps: &Reported) -> Option<usize>
    ensures lowest { Lowest (length steps.now.threads.now) (differs homes.now steps.now.threads.now steps.now.kinds.now steps.now.domains.now steps.now.codes.now) (or_end result (length steps.now.threads.now)) }
    ensures inside { IfSome result (λ place. place < length steps.now.threads.now) }
{
    if all_same(homes, steps) {
        return None;
    }
    (0..steps.threads.len()).find(|k| {
        let home = u16::from(homes[usize::from(steps.threads[*k])]);
        steps.kinds[*k] != steps.codes[*k] % 8
            || steps.domains[*k] != run::domain_of_code(home, steps.codes[*k])
    })
}

// What refuses a named step, given whether its kind is the step's.
pub(crate) fn reason_of(kind: u16, code: u16) -> Reason
    ensures { number_of result ≡ cond (eqb kind (code % 8)) 29 26 }
{
    if kind == code % 8 {
        return Reason::OtherDomain;
    }
    Reason::OtherKind
}
