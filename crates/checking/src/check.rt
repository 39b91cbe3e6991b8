// The check of any image, and its answer as numbers.
ghost use Rattle.std.specs.Prelude.{◌≡◌};
ghost use Rattle.spec.specs.Verdict.{rule_number, check};
ghost use Rattle.checking.specs.Checked.{checked_as};

use crate::verdict::verdict;
use door::good_length;
use spec::{Refusal, Rule, Verdict};

// Any image may be handed in.
#[tactic(auto, unfolding(spec::specs::Verdict::check))]
pub fn check(image: &[u8]) -> Result<Verdict, Refusal>
    ensures { checked_as result ≡ check image.now }
{
    if good_length(image.len()) {
        return Ok(verdict(image));
    }
    Err(Refusal::BadLength)
}

// The rules in their order, from 1 on. Rule is another crate's, so an impl of From can't stand here.
pub fn rule_number(rule: Rule) -> u32
    ensures { result ≡ rule_number rule }
{
    match rule {
        Rule::Head => 1,
        Rule::Unfinished => 2,
        Rule::Header => 3,
        Rule::Name => 4,
        Rule::End => 5,
        Rule::Mark => 6,
        Rule::Free => 7,
    }
}
