// The planned calls for C: steps handed out into three lent slices; the answer and the other numbers as in c.rt.
ghost use Rattle.std.specs.Prelude.{◌≡◌};
ghost use Rattle.spec.specs.Numbers.{of_write, of_put, of_mount, of_sweep};
ghost use Rattle.spec.specs.Planner.{Writing, planned};
ghost use Rattle.window.specs.Handed.{slices};
ghost use Rattle.calls.specs.Numbers.{fault, report, space, with_fault};
ghost use Rattle.plans.specs.Planned.{handing};

use crate::c::{tell_fault, tell_space};
use calls::numbers::Numbers;
use plans::plan_mount::plan_mount;
use plans::plan_put::plan_put;
use plans::plan_remove::plan_remove;
use plans::plan_sweep::plan_sweep;

#[unsafe(no_mangle)]
pub extern "C" fn lilota_plan_put(
    image: &[u8],
    name: &[u8],
    content: &[u8],
    first: usize,
    kinds: &mut [u32],
    addresses: &mut [u32],
    bytes: &mut [u32],
    handed: &mut usize,
    reason: &mut u32,
    place: &mut usize,
    live: &mut usize,
    dead: &mut usize,
    free: &mut usize,
    lost: &mut usize,
    steps: &mut usize,
) -> u32
    ensures { (handing (with_fault (fault reason.new place.new)
        (of_put result (space live.new dead.new free.new lost.new) steps.new))
        handed.new (slices kinds.new addresses.new bytes.new)
        ≡ planned (Writing.put name.now content.now) image.now first
        (slices kinds.old addresses.old bytes.old))
        × (image.exit.now ≡ image.entry.now) }
{
    let p = plan_put(image, name, content, first, kinds, addresses, bytes);
    *handed = plans::handed(&p);
    let n = Numbers::from(p);
    tell_fault(n.fault, reason, place);
    tell_space(n.space, live, dead, free, lost);
    *steps = n.steps;
    n.answer
}

#[unsafe(no_mangle)]
pub extern "C" fn lilota_plan_remove(
    image: &[u8],
    name: &[u8],
    first: usize,
    kinds: &mut [u32],
    addresses: &mut [u32],
    bytes: &mut [u32],
    handed: &mut usize,
    reason: &mut u32,
    place: &mut usize,
    steps: &mut usize,
) -> u32
    ensures { (handing (with_fault (fault reason.new place.new)
        (of_write result steps.new)) handed.new
        (slices kinds.new addresses.new bytes.new)
        ≡ planned (Writing.remove name.now) image.now first
        (slices kinds.old addresses.old bytes.old))
        × (image.exit.now ≡ image.entry.now) }
{
    let p = plan_remove(image, name, first, kinds, addresses, bytes);
    *handed = plans::handed(&p);
    let n = Numbers::from(p);
    tell_fault(n.fault, reason, place);
    *steps = n.steps;
    n.answer
}

#[unsafe(no_mangle)]
pub extern "C" fn lilota_plan_sweep(
    image: &[u8],
    first: usize,
    kinds: &mut [u32],
    addresses: &mut [u32],
    bytes: &mut [u32],
    handed: &mut usize,
    moves: &mut usize,
    live: &mut usize,
    dead: &mut usize,
    free: &mut usize,
    lost: &mut usize,
    steps: &mut usize,
) -> u32
    ensures { (handing (of_sweep result moves.new
        (space live.new dead.new free.new lost.new) steps.new) handed.new
        (slices kinds.new addresses.new bytes.new)
        ≡ planned Writing.sweep image.now first
        (slices kinds.old addresses.old bytes.old))
        × (image.exit.now ≡ image.entry.now) }
{
    let p = plan_sweep(image, first, kinds, addresses, bytes);
    *handed = plans::handed(&p);
    let n = Numbers::from(p);
    *moves = n.moves;
    tell_space(n.space, live, dead, free, lost);
    *steps = n.steps;
    n.answer
}

#[unsafe(no_mangle)]
pub extern "C" fn lilota_plan_mount(
    image: &[u8],
    first: usize,
    kinds: &mut [u32],
    addresses: &mut [u32],
    bytes: &mut [u32],
    handed: &mut usize,
    head: &mut usize,
    tail: &mut usize,
    files: &mut usize,
    live: &mut usize,
    dead: &mut usize,
    free: &mut usize,
    lost: &mut usize,
    steps: &mut usize,
) -> u32
    ensures { (handing
        (of_mount result (report head.new tail.new files.new)
        (space live.new dead.new free.new lost.new) steps.new)
        handed.new (slices kinds.new addresses.new bytes.new)
        ≡ planned Writing.mount image.now first
        (slices kinds.old addresses.old bytes.old))
        × (image.exit.now ≡ image.entry.now) }
{
    let p = plan_mount(image, first, kinds, addresses, bytes);
    *handed = plans::handed(&p);
    let n = Numbers::from(p);
    *head = n.report.head;
    *tail = n.report.tail;
    *files = n.report.files;
    tell_space(n.space, live, dead, free, lost);
    *steps = n.steps;
    n.answer
}
