// The public calls on an image of NOR flash: format, mount, put, get, list, remove and sweep. Each asks nothing of its caller, and equates
// every outcome with the one that document 01 defines.
#![tactic(auto)]

mod carry;
pub mod get;
pub mod length;
pub mod list;
pub mod mount;
pub mod numbers;
pub mod put;
pub mod remove;
pub mod sweep;

ghost use Rattle.std.specs.Prelude.{◌≡◌, length};
ghost use Rattle.spec.specs.Numbers.{outcome_of};
ghost use Rattle.spec.specs.Answers.{format};
ghost use Rattle.calls.specs.Numbers.{written, WrittenTold};

use carry::ended;
use door::good_length;
use flash::Meter;
use spec::{Extent, Refusal, Report, Space};
use writing::format::format_image;

// What format and remove answer, unless they refuse: all their steps are done, or they were cut, after so many.
#[derive(Clone, Copy)]
pub enum Written {
    Done { steps: usize },
    Cut { steps: usize },
}

// What put answers: done, with what the bytes of the image that it leaves are good for; or cut.
#[derive(Clone, Copy)]
pub enum Stored {
    Done { space: Space, steps: usize },
    Cut { steps: usize },
}

// What mount answers: done, with what it reports of the image it leaves; or cut.
#[derive(Clone, Copy)]
pub enum Mounted {
    Done {
        report: Report,
        space: Space,
        steps: usize,
    },
    Cut {
        steps: usize,
    },
}

// What sweep answers: done, with the number of its moves, and as put; or cut, after so many finished moves.
#[derive(Clone, Copy)]
pub enum Swept {
    Done {
        moves: usize,
        space: Space,
        steps: usize,
    },
    Cut {
        moves: usize,
        steps: usize,
    },
}

// A file in the list: where its name stands, and its length.
#[derive(Clone, Copy)]
pub struct Listed {
    pub name: Extent,
    pub size: usize,
}

// Makes an empty store of the image, within this allowance of flash steps.
pub fn format(image: &mut [u8], allowance: usize) -> Result<Written, Refusal>
    ensures { (outcome_of (written result) image.new ≡ format image.old allowance) × WrittenTold result }
{
    if !good_length(image.len()) {
        return Err(Refusal::BadLength);
    }
    let m = Meter {
        allowance,
        asked: 0,
    };
    Ok(ended(format_image(image, m)))
}
