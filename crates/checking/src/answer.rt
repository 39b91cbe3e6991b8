// The answer of the check as numbers.
ghost use Rattle.std.specs.Prelude.{◌≡◌};
ghost use Rattle.spec.specs.Verdict.{verdict_told, verdict_numbers};
ghost use Rattle.checking.specs.Checked.{checked_as, numbered_as, numbers, told_as};

use crate::Told;
use crate::check::rule_number;
use spec::{Refusal, Verdict};

fn told(verdict: u32, number: u32, address: usize) -> Told
    ensures { told_as result ≡ numbers 0 verdict number address }
{
    Told {
        answer: 0,
        verdict,
        number,
        address,
    }
}

fn verdict_told(v: Verdict) -> Told
    ensures { told_as result ≡ verdict_told v }
{
    match v {
        Verdict::Settled => told(0, 0, 0),
        Verdict::Recovery { number } => told(1, number, 0),
        Verdict::Broken { rule, at } => told(2, rule_number(rule), at),
    }
}

// A refusal told by its number: any number is taken.
#[tactic(auto, unfolding(spec::specs::Verdict::verdict_numbers))]
pub fn numbered_told(c: Result<Verdict, u32>) -> Told
    ensures { told_as result ≡ verdict_numbers (numbered_as c) }
{
    match c {
        Ok(v) => verdict_told(v),
        Err(number) => Told {
            answer: number,
            verdict: 0,
            number: 0,
            address: 0,
        },
    }
}

#[tactic(auto, unfolding(spec::specs::Verdict::verdict_numbers))]
pub fn checked_told(c: Result<Verdict, Refusal>) -> Told
    ensures { told_as result ≡ verdict_numbers (checked_as c) }
{
    numbered_told(match c {
        Ok(v) => Ok(v),
        Err(x) => Err(x.number()),
    })
}
