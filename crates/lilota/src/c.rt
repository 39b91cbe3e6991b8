// The C interface: each call with numbers and byte slices; it gives the answer back, and its other numbers through lent ones.
// c_plan.rt has the planned calls.
ghost use Rattle.std.specs.Prelude.{◌≡◌};
ghost use Rattle.spec.specs.Refusals.{fault_told};
ghost use Rattle.spec.specs.Numbers.{outcome_of, of_write, of_put, of_mount, of_sweep, of_get, of_list};
ghost use Rattle.spec.specs.Answers.{format, mount, put, get, list, remove, sweep};
ghost use Rattle.calls.specs.Numbers.{fault, report, space, extent, with_fault};

use calls::format;
use calls::get::get_place;
use calls::list::list_place;
use calls::mount::mount;
use calls::numbers::Numbers;
use calls::put::put;
use calls::remove::remove;
use calls::sweep::sweep;
use spec::{NameFault, Space};

// What is wrong with a name, if anything is, as C gets it.
pub fn tell_fault(f: Option<NameFault>, reason: &mut u32, place: &mut usize)
    ensures { fault reason.new place.new ≡ fault_told f }
{
    *reason = f.map_or(0, NameFault::reason);
    *place = f.map_or(0, NameFault::place);
}

// What the bytes of an image are good for, as C gets it.
pub fn tell_space(x: Space, live: &mut usize, dead: &mut usize, free: &mut usize, lost: &mut usize)
    ensures { space live.new dead.new free.new lost.new ≡ x }
{
    *live = x.live;
    *dead = x.dead;
    *free = x.free;
    *lost = x.lost;
}

#[unsafe(no_mangle)]
pub extern "C" fn lilota_format(image: &mut [u8], allowance: usize, steps: &mut usize) -> u32
    ensures { outcome_of (of_write result steps.new) image.new ≡ format image.old allowance }
{
    let n = Numbers::from(format(image, allowance));
    *steps = n.steps;
    n.answer
}

#[unsafe(no_mangle)]
pub extern "C" fn lilota_mount(
    image: &mut [u8],
    allowance: usize,
    head: &mut usize,
    tail: &mut usize,
    files: &mut usize,
    live: &mut usize,
    dead: &mut usize,
    free: &mut usize,
    lost: &mut usize,
    steps: &mut usize,
) -> u32
    ensures { outcome_of
        (of_mount result (report head.new tail.new files.new)
        (space live.new dead.new free.new lost.new) steps.new) image.new
        ≡ mount image.old allowance }
{
    let n = Numbers::from(mount(image, allowance));
    *head = n.report.head;
    *tail = n.report.tail;
    *files = n.report.files;
    tell_space(n.space, live, dead, free, lost);
    *steps = n.steps;
    n.answer
}

#[unsafe(no_mangle)]
pub extern "C" fn lilota_put(
    image: &mut [u8],
    name: &[u8],
    content: &[u8],
    allowance: usize,
    reason: &mut u32,
    place: &mut usize,
    live: &mut usize,
    dead: &mut usize,
    free: &mut usize,
    lost: &mut usize,
    steps: &mut usize,
) -> u32
    ensures { outcome_of (with_fault (fault reason.new place.new)
        (of_put result (space live.new dead.new free.new lost.new) steps.new))
        image.new
        ≡ put image.old name.now content.now allowance }
{
    let n = Numbers::from(put(image, name, content, allowance));
    tell_fault(n.fault, reason, place);
    tell_space(n.space, live, dead, free, lost);
    *steps = n.steps;
    n.answer
}

#[unsafe(no_mangle)]
pub extern "C" fn lilota_get(
    image: &[u8],
    name: &[u8],
    reason: &mut u32,
    place: &mut usize,
    offset: &mut usize,
    size: &mut usize,
) -> u32
    ensures { outcome_of (with_fault (fault reason.new place.new)
        (of_get result (extent offset.new size.new))) image.exit.now
        ≡ get image.now name.now }
{
    let n = Numbers::from(get_place(image, name));
    tell_fault(n.fault, reason, place);
    *offset = n.extent.offset;
    *size = n.extent.length;
    n.answer
}

#[unsafe(no_mangle)]
pub extern "C" fn lilota_list(
    image: &[u8],
    index: usize,
    offset: &mut usize,
    length: &mut usize,
    size: &mut usize,
) -> u32
    ensures { outcome_of (of_list result (extent offset.new length.new) size.new) image.exit.now
        ≡ list image.now index }
{
    let n = Numbers::from(list_place(image, index));
    *offset = n.extent.offset;
    *length = n.extent.length;
    *size = n.size;
    n.answer
}

#[unsafe(no_mangle)]
pub extern "C" fn lilota_remove(
    image: &mut [u8],
    name: &[u8],
    allowance: usize,
    reason: &mut u32,
    place: &mut usize,
    steps: &mut usize,
) -> u32
    ensures { outcome_of (with_fault (fault reason.new place.new)
        (of_write result steps.new)) image.new
        ≡ remove image.old name.now allowance }
{
    let n = Numbers::from(remove(image, name, allowance));
    tell_fault(n.fault, reason, place);
    *steps = n.steps;
    n.answer
}

#[unsafe(no_mangle)]
pub extern "C" fn lilota_sweep(
    image: &mut [u8],
    allowance: usize,
    moves: &mut usize,
    live: &mut usize,
    dead: &mut usize,
    free: &mut usize,
    lost: &mut usize,
    steps: &mut usize,
) -> u32
    ensures { outcome_of (of_sweep result moves.new
        (space live.new dead.new free.new lost.new) steps.new) image.new
        ≡ sweep image.old allowance }
{
    let n = Numbers::from(sweep(image, allowance));
    *moves = n.moves;
    tell_space(n.space, live, dead, free, lost);
    *steps = n.steps;
    n.answer
}
