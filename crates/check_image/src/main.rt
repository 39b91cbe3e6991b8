// K13's program: reads an image of up to 64 KiB from standard input and prints one line, the verdict on it, or 22 for a bad or greater
// length. The stored input was made by hand, and its line worked out from documents 01 and 02 (docs/requests/K13.md says how).
#![tactic(auto)]

use checking::check::check;
use spec::{Refusal, Rule, Verdict};
use std::fmt;
use std::io::{self, Read};

// The longest image that is read.
const LONGEST: usize = 65536;

// What the check answers, as the program's line.
#[derive(Clone, Copy)]
struct Line(Result<Verdict, Refusal>);

impl fmt::Display for Line {
    fn fmt<W: fmt::Write>(&self, f: &mut fmt::Formatter<W>) -> fmt::Result {
        match self.0 {
            Ok(Verdict::Settled) => f.write_str("settled"),
            Ok(Verdict::Recovery { number }) => write!(f, "recovery {number}"),
            Ok(Verdict::Broken { rule, at }) => write!(f, "broken {} {at}", word(rule)),
            Err(refusal) => write!(f, "{}", refusal.number()),
        }
    }
}

fn word(rule: Rule) -> &'static str {
    match rule {
        Rule::Head => "head",
        Rule::Unfinished => "unfinished",
        Rule::Header => "header",
        Rule::Name => "name",
        Rule::End => "end",
        Rule::Mark => "mark",
        Rule::Free => "free",
    }
}

// One byte more than the longest image is asked for, which tells a longer one.
fn main(rt: HostRuntime) -> io::Result<()> {
    let mut image = Vec::new(rt.alloc());
    rt.reader()
        .take(LONGEST as u64 + 1)
        .read_to_end(&mut image)?;
    let checked = if image.len() <= LONGEST {
        check(&image)
    } else {
        Err(Refusal::BadLength)
    };
    println!(rt; "{}", Line(checked))
}
