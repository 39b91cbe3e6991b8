// Mount planned: its four repairs handed out, and its report, from the first reading and the unchanged image.
ghost use Rattle.std.specs.Prelude.{◌≡◌, true, ◌++◌, ◌+◌, ◌*◌, ◌≤◌, length};
ghost use Rattle.spec.specs.Reading.{marks_ok};
ghost use Rattle.spec.specs.Answers.{report_of};
ghost use Rattle.planning.specs.Repairs.{steps_1, steps_2, steps_3};
ghost use Rattle.planning.specs.Planned.{planned_mend, mended_reading};
ghost use Rattle.planning.specs.Told.{behind, behind_place};
ghost use Rattle.reading.specs.Read.{reading_of, Surveyed};
ghost use Rattle.reading.specs.Survey.{TornInside};
ghost use Rattle.recovery.specs.Drop.{dropped};
ghost use Rattle.window.specs.Handed.{Handed, Counts};

use crate::finish::hand_finish;
use crate::free::hand_free;
use crate::last::hand_last;
use crate::place::led;
use crate::superseded::{hand_superseded, leads};
use chain::files::count_files;
use reading::Survey;
use reading::image::first_cursor;
use spec::{Place, Report};
use window::Emitter;

// Repairs 1 and 2.
fn hand_head(out: &mut Emitter<'_>, image: &[u8], s: Survey)
    requires { Surveyed image.now s × Counts out.old (4 * length image.now + 5) }
    ensures handed { Handed out.old
        (steps_1 image.now (reading_of image.now s)
        ++ steps_2 (length image.now) (reading_of image.now s).entries)
        out.new }
    ensures passed_bound { out.new.passed ≤ out.old.passed + (4 * length image.now + 5) }
{
    hand_free(out, image, s);
    hand_finish(out, image, s);
}

// Repairs 3 and 4.
fn hand_rest(out: &mut Emitter<'_>, image: &[u8], s: Survey)
    requires { Surveyed image.now s × TornInside (length image.now) s.ending × Counts out.old (2 * length image.now + 12) }
    ensures { let es = (reading_of image.now s).entries in
        Handed out.old (steps_3 image.now (reading_of image.now s) ++ dropped es (behind es)) out.new }
{
    hand_last(out, image, s);
    hand_superseded(out, image, s);
}

// All four, on an image that mount accepts.
pub fn hand_mend(out: &mut Emitter<'_>, image: &[u8], s: Survey)
    requires surveyed { Surveyed image.now s × TornInside (length image.now) s.ending
        × Counts out.old (6 * length image.now + 17) }
    requires s_value { marks_ok (reading_of image.now s).entries ≡ true }
    ensures { Handed out.old (planned_mend image.now (reading_of image.now s)) out.new }
{
    hand_head(out, image, s);
    hand_rest(out, image, s);
}

// The place that is read when the repairs are done.
pub fn mended_place(image: &[u8], s: Survey) -> Place
    requires { Surveyed image.now s }
    ensures { result ≡ behind_place s.place (reading_of image.now s).entries }
{
    if leads(image, s) {
        return led(s.place, s.tally.second.at);
    }
    s.place
}

// What mount reports: head and tail that the repairs leave, and as many live files as there are now.
pub fn planned_report(image: &[u8], s: Survey) -> Report
    requires surveyed { Surveyed image.now s }
    requires s_value { marks_ok (reading_of image.now s).entries ≡ true }
    ensures { result ≡ report_of (mended_reading (reading_of image.now s)) }
{
    let Place { head, tail, .. } = mended_place(image, s);
    Report {
        head,
        tail,
        files: count_files(image, first_cursor(image, s.place.head)),
    }
}
