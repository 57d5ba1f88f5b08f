// The rate of a busy three-level lock from its thresholds and its passing times.
#![tactic(auto)]

ghost use Rattle.std.specs.Prelude.{◌≡◌, ◌<◌};
ghost use Rattle.rate.specs.Rate.{is_time, passing_rate};
ghost use Rattle.rate.specs.Answers.{answer_from, answer_in, rate_answer, reply_of};

use refusals::reasons::{Reason, Refusal};

// How long it takes to pass the lock on: p1 within a home, p2 between homes below one domain, p3 across the root, all in one unit.
#[repr(C)]
#[derive(Clone, Copy)]
pub struct PassingTimes {
    pub p1: f64,
    pub p2: f64,
    pub p3: f64,
}

// Kept: an enum of this crate's own, since a reply is made of every number and place, also of a number that no `Reason` has.
// A rate, in entries per unit of the times, or a refusal.
#[derive(Clone, Copy)]
pub enum RateAnswer {
    Rate(f64),
    Refused { number: u32, place: u32 },
}

// The same as numbers: 0 and 0 with the rate; if refused, number and place with rate 0.
#[repr(C)]
#[derive(Clone, Copy)]
pub struct RateReply {
    pub number: u32,
    pub place: u32,
    pub rate: f64,
}

// Whether x is a number from 1/1024 to 1,048,576. Both comparisons are false for a NaN.
fn in_range(x: f64) -> bool
    ensures { result ≡ is_time x }
{
    x >= 0.0009765625 && x <= 1048576.0
}

// The whole-number parts are exact in 32 bits and as floats; then each operation rounds once, in the order of the lines.
fn rate_of(h1: u16, h2: u16, times: PassingTimes) -> f64
    requires { (0 < h1) × (0 < h2) }
    ensures { result ≡ passing_rate h1 h2 times }
{
    let wide_h1 = h1 as u32;
    let wide_h2 = h2 as u32;
    let entries = (wide_h1 * wide_h2) as f64;
    let p2_passes = (wide_h2 - 1) as f64;
    let p1_passes = (wide_h2 * (wide_h1 - 1)) as f64;
    let p2_product = p2_passes * times.p2;
    let p1_product = p1_passes * times.p1;
    let sum = times.p3 + p2_product;
    let cycle = sum + p1_product;
    entries / cycle
}

// The rate, or 8 for a threshold of 0, or 24 for a time out of range.
pub fn rate(h1: u16, h2: u16, times: PassingTimes) -> Result<f64, Refusal>
    ensures { answer_from result ≡ rate_answer h1 h2 times }
{
    if h1 == 0 {
        return Err(Reason::NoThreshold.at(1));
    }
    if h2 == 0 {
        return Err(Reason::NoThreshold.at(2));
    }
    if !in_range(times.p1) {
        return Err(Reason::BadTime.at(1));
    }
    if !in_range(times.p2) {
        return Err(Reason::BadTime.at(2));
    }
    if !in_range(times.p3) {
        return Err(Reason::BadTime.at(3));
    }
    Ok(rate_of(h1, h2, times))
}

impl From<Result<f64, Refusal>> for RateAnswer {
    ghost from_gives = { λ r a. answer_in a ≡ answer_from r };

    fn from(answer: Result<f64, Refusal>) -> RateAnswer {
        match answer {
            Ok(rate) => RateAnswer::Rate(rate),
            Err(refusal) => RateAnswer::Refused {
                number: refusal.number(),
                place: refusal.place,
            },
        }
    }
}

// An answer as numbers, for a caller that cannot take an enum.
pub fn reply(answer: RateAnswer) -> RateReply
    ensures { result ≡ reply_of (answer_in answer) }
{
    match answer {
        RateAnswer::Rate(rate) => RateReply {
            number: 0,
            place: 0,
            rate,
        },
        RateAnswer::Refused { number, place } => RateReply {
            number,
            place,
            rate: 0.0,
        },
    }
}
