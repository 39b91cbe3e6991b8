// Step (a) of a move: the head's record copied to another address of the same image, byte by byte.
ghost use Rattle.std.specs.Prelude.{◌+◌, ◌<◌, ◌≤◌, length, take, drop};
ghost use Rattle.spec.specs.Step.{bytes_at, shifted};
ghost use Rattle.spec.specs.Record.{size_of, name_of, content_of};
ghost use Rattle.spec.specs.Write.{name_steps, data_steps, record_steps};
ghost use Rattle.flash.specs.Did.{Did};
ghost use Rattle.flash.specs.Meters.{CanCount};
ghost use Rattle.writing.specs.Put.{Ready};
ghost use Rattle.moving.specs.Untouched.{Apart};
ghost use Rattle.moving.specs.Copied.{entry_at, Copyable};
ghost use Rattle.moving.specs.Copy.{HeadEnds, copy_of};

use flash::{Meter, program};
use record::{size, up_8};
use spec::{Place, Placement, Status};
use writing::build::{reserve, set_status, write_end};
use writing::{OldFile, delete, prepare};

// Programs n bytes from one address on as they stand from the other on.
fn copy_bytes(image: &mut [u8], from: usize, to: usize, n: usize, m: Meter) -> Meter
    requires n_in_bounds { (from + n ≤ length image.old) × (to + n ≤ length image.old) × Apart from to n }
    requires can_count { CanCount m n }
    ensures { let s = image.old in Did s m (bytes_at to (take n (drop from s))) image.new result }
{
    let mut q = m;
    for i in 0..n {
        let byte = image[from + i];
        q = program(image, to + i, byte, q);
    }
    q
}

// The name of n bytes, and the 00 that ends it.
fn copy_name(image: &mut [u8], from: usize, to: usize, n: usize, m: Meter) -> Meter
    requires n_in_bounds { (from + 8 + n ≤ length image.old) × (to + 8 + n < length image.old) × Apart (from + 8) (to + 8) n }
    requires can_count { CanCount m (n + 2) }
    ensures { let s = image.old in
        Did s m (shifted to (name_steps (take n (drop 8 (drop from s))))) image.new result }
{
    let a = copy_bytes(image, from + 8, to + 8, n, m);
    write_end(image, to + 8 + n, a)
}

// The d data bytes, behind a name of n bytes.
fn copy_data(image: &mut [u8], from: usize, to: usize, n: usize, d: usize, m: Meter) -> Meter
    requires copyable { Copyable (length image.old) from to n d }
    requires can_count { CanCount m d }
    ensures { let s = image.old in
        Did s m (shifted to (data_steps n (content_of (entry_at s from n d)))) image.new result }
{
    let start = 8 + up_8(n + 1);
    copy_bytes(image, from + start, to + start, d, m)
}

// A whole record with n name bytes and d data bytes, as put writes it.
fn copy_record(image: &mut [u8], from: usize, to: usize, n: usize, d: usize, m: Meter) -> Meter
    requires copyable { Copyable (length image.old) from to n d }
    requires can_count { CanCount m (n + d + 10) }
    ensures { let x = entry_at image.old from n d in
        Did image.old m (shifted to (record_steps (name_of x) (content_of x))) image.new result }
{
    let a = reserve(image, to, d, m);
    let b = copy_name(image, from, to, n, a);
    let c = copy_data(image, from, to, n, d, b);
    set_status(image, to, Status::COMMITTED, c)
}

// (a) The record at the head, with n name bytes and d data bytes, copied as in a put.
pub fn copy_head(image: &mut [u8], place: Place, n: usize, d: usize, m: Meter) -> Meter
    requires ready { Ready place (length image.old) n d m.asked }
    requires head_ends { HeadEnds place (size_of n d) }
    ensures { let s = image.old in Did s m (copy_of place (entry_at s place.head n d)) image.new result }
{
    let Some(Placement { at, marker, .. }) = place.after(size(n, d)) else {
        return m;
    };
    let head = place.head;
    let old = Some(OldFile {
        at: head,
        status: Status::from_byte(image[head + 2]),
    });
    let a = prepare(image, old, place.tail, marker, m);
    let b = copy_record(image, head, at, n, d, a);
    delete(image, old, b)
}
