// The step list of each call handed out and not done: an emitter for each, over the image as it was before the first step.
// Nothing here writes an image.
#![tactic(auto)]

pub mod close;
mod finish;
mod free;
mod last;
pub mod mount;
pub mod place;
pub mod superseded;
pub mod sweep;

use chain::Cursor;
use spec::Place;

// Recovery, moving and sweeping do the same steps, but read the image anew after those before; here all comes from the first reading. So
// the two differ in more than a type, and stay apart.

// Where a planned sweep stands: the cursor at X, the place that is read there, and the first copy.
#[derive(Clone, Copy)]
pub struct Walk {
    pub cursor: Cursor,
    pub place: Place,
    pub copy: Option<usize>,
}
