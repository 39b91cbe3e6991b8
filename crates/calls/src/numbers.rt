// What a call answers, in document 01's numbers, as C gets them.
ghost use Rattle.std.specs.Prelude.{◌≡◌, Ok};
ghost use Rattle.calls.specs.Numbers.{told, written, stored, mounted, swept, located, listed, refused, Converts};
ghost use Rattle.calls.specs.Length.{sized};

use crate::{Listed, Mounted, Stored, Swept, Written};
use spec::{Extent, NameFault, Refusal, Report, Space};

// The answer, and what else the call tells. What it does not speak of is zero.
#[derive(Clone, Copy)]
pub struct Numbers {
    pub answer: u32,
    pub fault: Option<NameFault>,
    pub report: Report,
    pub moves: usize,
    pub extent: Extent,
    pub size: usize,
    pub space: Space,
    pub steps: usize,
}

pub const NO_EXTENT: Extent = Extent {
    offset: 0,
    length: 0,
};

// Answer 0, with nothing told.
const ZEROS: Numbers = Numbers {
    answer: 0,
    fault: None,
    report: Report {
        head: 0,
        tail: 0,
        files: 0,
    },
    moves: 0,
    extent: NO_EXTENT,
    size: 0,
    space: Space {
        live: 0,
        dead: 0,
        free: 0,
        lost: 0,
    },
    steps: 0,
};

impl Numbers {
    // A file's length, or why there is none.
    pub fn of_length(length: Result<usize, Refusal>) -> Numbers
        ensures { told result ≡ sized length }
    {
        match length {
            Ok(size) => Numbers { size, ..ZEROS },
            Err(x) => Numbers::from(x),
        }
    }
}

impl From<Written> for Numbers {
    ghost from_gives = { λ w n. told n ≡ written (Ok w) };

    fn from(w: Written) -> Numbers {
        match w {
            Written::Done { steps } => Numbers { steps, ..ZEROS },
            Written::Cut { steps } => Numbers {
                answer: 4,
                steps,
                ..ZEROS
            },
        }
    }
}

impl From<Stored> for Numbers {
    ghost from_gives = { λ w n. told n ≡ stored (Ok w) };

    fn from(w: Stored) -> Numbers {
        match w {
            Stored::Done { space, steps } => Numbers {
                space,
                steps,
                ..ZEROS
            },
            Stored::Cut { steps } => Numbers {
                answer: 4,
                steps,
                ..ZEROS
            },
        }
    }
}

impl From<Mounted> for Numbers {
    ghost from_gives = { λ w n. told n ≡ mounted (Ok w) };

    fn from(w: Mounted) -> Numbers {
        match w {
            Mounted::Done {
                report,
                space,
                steps,
            } => Numbers {
                report,
                space,
                steps,
                ..ZEROS
            },
            Mounted::Cut { steps } => Numbers {
                answer: 4,
                steps,
                ..ZEROS
            },
        }
    }
}

impl From<Swept> for Numbers {
    ghost from_gives = { λ w n. told n ≡ swept (Ok w) };

    fn from(w: Swept) -> Numbers {
        match w {
            Swept::Done {
                moves,
                space,
                steps,
            } => Numbers {
                moves,
                space,
                steps,
                ..ZEROS
            },
            Swept::Cut { moves, steps } => Numbers {
                answer: 4,
                moves,
                steps,
                ..ZEROS
            },
        }
    }
}

impl From<Extent> for Numbers {
    ghost from_gives = { λ x n. told n ≡ located (Ok x) };

    fn from(extent: Extent) -> Numbers {
        Numbers { extent, ..ZEROS }
    }
}

impl From<Listed> for Numbers {
    ghost from_gives = { λ l n. told n ≡ listed (Ok l) };

    fn from(l: Listed) -> Numbers {
        Numbers {
            extent: l.name,
            size: l.size,
            ..ZEROS
        }
    }
}

impl From<Refusal> for Numbers {
    ghost from_gives = { λ x n. told n ≡ refused x };

    fn from(x: Refusal) -> Numbers {
        Numbers {
            answer: x.number(),
            fault: x.fault(),
            ..ZEROS
        }
    }
}

impl<T: Into<Numbers>> From<Result<T, Refusal>> for Numbers {
    ghost from_gives = { λ r n. Converts T.converts r n };

    fn from(r: Result<T, Refusal>) -> Numbers {
        match r {
            Ok(x) => x.into(),
            Err(x) => Numbers::from(x),
        }
    }
}
