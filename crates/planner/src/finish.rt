// Repair 2 handed out: a move that was cut is brought to its end, with the second record as the head.
ghost use Rattle.std.specs.Prelude.{◌+◌, ◌*◌, ◌≤◌, length};
ghost use Rattle.planning.specs.Repairs.{steps_2};
ghost use Rattle.reading.specs.Read.{reading_of, Surveyed};
ghost use Rattle.window.specs.Handed.{Handed, Counts};

use crate::close::hand_close;
use chain::scan::low_of;
use reading::Survey;
use record::bytes::is_clean;
use spec::START;
use window::Emitter;

// By the second record: CLEAN, START, or neither.
pub fn hand_finish(out: &mut Emitter<'_>, image: &[u8], s: Survey)
    requires { Surveyed image.now s × Counts out.old (2 * length image.now + 3) }
    ensures handed { Handed out.old (steps_2 (length image.now) (reading_of image.now s).entries) out.new }
    ensures passed_bound { out.new.passed ≤ out.old.passed + (2 * length image.now + 3) }
{
    if s.tally.records < 2 {
        return;
    }
    let x = s.tally.first;
    let y = s.tally.second;
    let low = low_of(image, y);
    if is_clean(low) {
        hand_close(out, image, x, y.at, low);
    } else if low == START {
        out.program(x.at + 1, 0x00);
    }
}
