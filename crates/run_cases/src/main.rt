// The cases of document 01 that it does not mark with *, and names that K5 of document 02 allows or refuses, run on the proved library and
// printed as tables.
// The stored output, which the run is held to, was worked out by hand from document 01 and its changes in document 02.
#![tactic(auto)]

use calls::format;
use calls::get::{get, get_place};
use calls::mount::mount;
use calls::numbers::Numbers;
use calls::put::put;
use calls::remove::remove;
use calls::sweep::sweep;
use spec::NameFault;
use std::io;

// More steps than any call here needs.
const ENOUGH: usize = 1000000;

fn text(rt: &impl Print, words: &str) -> io::Result<()> {
    print!(rt; "{words}")
}

// A number, set to the right in six places; a longer one behind two spaces.
fn number(rt: &impl Print, n: usize) -> io::Result<()> {
    print!(rt; "  {n:>4}")
}

// The first three bytes of a file, or as many as it has.
fn first_bytes(rt: &impl Print, file: &[u8]) -> io::Result<()> {
    if !file.is_empty() {
        text(rt, " ")?;
    }
    for byte in file.iter().take(3) {
        print!(rt; " {byte:02x}")?;
    }
    text(rt, "\n")
}

// What mount answers, and the four numbers of its success.
fn mounted(rt: &impl Print, image: &mut [u8]) -> io::Result<()> {
    let n = Numbers::from(mount(image, ENOUGH));
    number(rt, n.answer as usize)?;
    number(rt, n.steps)?;
    number(rt, n.report.head)?;
    number(rt, n.report.tail)?;
    number(rt, n.report.files)
}

// A put within an allowance, the mount after it, and what get then gives of that name.
fn put_row(
    rt: &impl Print,
    image: &mut [u8],
    name: &[u8],
    content: &[u8],
    allowance: usize,
) -> io::Result<()> {
    let n = Numbers::from(put(image, name, content, allowance));
    number(rt, n.answer as usize)?;
    number(rt, n.steps)?;
    mounted(rt, image)?;
    let place = Numbers::from(get_place(image, name));
    number(rt, place.answer as usize)?;
    number(rt, place.extent.length)?;
    first_bytes(rt, get(image, name))
}

// The same on an image that was just formatted.
fn first_put_row(
    rt: &impl Print,
    image: &mut [u8],
    name: &[u8],
    content: &[u8],
    allowance: usize,
) -> io::Result<()> {
    let _ = format(image, ENOUGH);
    put_row(rt, image, name, content, allowance)
}

// A put that replaces a file of that name.
fn second_put_row(
    rt: &impl Print,
    image: &mut [u8],
    name: &[u8],
    old: &[u8],
    new: &[u8],
    allowance: usize,
) -> io::Result<()> {
    let _ = format(image, ENOUGH);
    let _ = put(image, name, old, ENOUGH);
    put_row(rt, image, name, new, allowance)
}

// A sweep after the first put, and the mount after it.
fn sweep_row(rt: &impl Print, image: &mut [u8], name: &[u8], content: &[u8]) -> io::Result<()> {
    let _ = format(image, ENOUGH);
    let _ = put(image, name, content, ENOUGH);
    let n = Numbers::from(sweep(image, ENOUGH));
    number(rt, n.answer as usize)?;
    number(rt, n.moves)?;
    number(rt, n.steps)?;
    mounted(rt, image)?;
    first_bytes(rt, get(image, name))
}

// What is wrong with a name: the reason, and the bad byte's place.
fn fault(rt: &impl Print, f: Option<NameFault>) -> io::Result<()> {
    number(rt, f.map_or(0, NameFault::reason) as usize)?;
    number(rt, f.map_or(0, NameFault::place))
}

// What put answers to a name, and what it says is wrong with it.
fn put_named(rt: &impl Print, image: &mut [u8], name: &[u8], content: &[u8]) -> io::Result<()> {
    let n = Numbers::from(put(image, name, content, ENOUGH));
    number(rt, n.answer as usize)?;
    fault(rt, n.fault)
}

// The same of get, with where it says that the bytes stand.
fn get_named(rt: &impl Print, image: &[u8], name: &[u8]) -> io::Result<()> {
    let n = Numbers::from(get_place(image, name));
    number(rt, n.answer as usize)?;
    fault(rt, n.fault)?;
    number(rt, n.extent.offset)?;
    number(rt, n.extent.length)
}

// The same of remove.
fn remove_named(rt: &impl Print, image: &mut [u8], name: &[u8]) -> io::Result<()> {
    let n = Numbers::from(remove(image, name, ENOUGH));
    number(rt, n.answer as usize)?;
    fault(rt, n.fault)
}

// The three calls with one name, on this image.
fn name_row(rt: &impl Print, image: &mut [u8], name: &[u8], content: &[u8]) -> io::Result<()> {
    put_named(rt, image, name, content)?;
    get_named(rt, image, name)?;
    text(rt, "  ")?;
    remove_named(rt, image, name)?;
    text(rt, "\n")
}

// The same on an image that was just formatted.
fn first_name_row(
    rt: &impl Print,
    image: &mut [u8],
    name: &[u8],
    content: &[u8],
) -> io::Result<()> {
    let _ = format(image, ENOUGH);
    name_row(rt, image, name, content)
}

// Names that are allowed, and each reason for which one is refused.
fn name_table(rt: &impl Print, overlong: &[u8], content: &[u8]) -> io::Result<()> {
    let mut image = [0u8; 8192];
    text(
        rt,
        "\nname                      put   why place   get   why place    at bytes  remove   why place\n",
    )?;
    text(rt, "\"night basal\"          ")?;
    first_name_row(rt, &mut image, b"night basal", content)?;
    text(rt, "empty                  ")?;
    first_name_row(rt, &mut image, b"", content)?;
    text(rt, "64 bytes               ")?;
    first_name_row(rt, &mut image, overlong, content)?;
    text(rt, "\" basal\"               ")?;
    first_name_row(rt, &mut image, b" basal", content)?;
    text(rt, "\"night \"               ")?;
    first_name_row(rt, &mut image, b"night ", content)?;
    text(rt, "\"b\", 1F, \"/\"           ")?;
    first_name_row(rt, &mut image, b"b\x1F/", content)?;
    text(rt, "\"night basal/\"         ")?;
    first_name_row(rt, &mut image, b"night basal/", content)?;
    text(rt, "\"a/\", N of 4,096       ")?;
    let mut sector = [0xFFu8; 4096];
    name_row(rt, &mut sector, b"a/", content)
}

fn main(rt: HostRuntime) -> io::Result<()> {
    let mut image = [0u8; 8192];
    let large = [7u8; 2024];
    let dose = b"dose";
    let old = b"\x01\x02\x03";
    let new = b"\x07\x08\x09";
    let named = b"abcdefghijklmnopqrstuvwxyz0123456789ABCDEFGHIJKLMNOPQRSTUVWXYZ_";
    let overlong = b"abcdefghijklmnopqrstuvwxyz0123456789ABCDEFGHIJKLMNOPQRSTUVWXYZ_+";

    text(
        &rt,
        "case                      put steps mount steps  head  tail files   get bytes  the first\n",
    )?;
    text(&rt, "put, cut after 16      ")?;
    first_put_row(&rt, &mut image, dose, old, 16)?;
    text(&rt, "put, with 17           ")?;
    first_put_row(&rt, &mut image, dose, old, 17)?;
    text(&rt, "replacing, cut at 17   ")?;
    second_put_row(&rt, &mut image, dose, old, new, 17)?;
    text(&rt, "2,024 bytes            ")?;
    first_put_row(&rt, &mut image, dose, &large, ENOUGH)?;
    text(&rt, "name of 63 bytes       ")?;
    first_put_row(&rt, &mut image, named, old, ENOUGH)?;
    text(&rt, "name of 64 bytes       ")?;
    first_put_row(&rt, &mut image, overlong, old, ENOUGH)?;
    text(&rt, "name \"a/\"              ")?;
    first_put_row(&rt, &mut image, b"a/", old, ENOUGH)?;
    text(&rt, "empty content          ")?;
    first_put_row(&rt, &mut image, dose, b"", ENOUGH)?;

    text(
        &rt,
        "\ncase                    sweep moves steps mount steps  head  tail files  the first\n",
    )?;
    text(&rt, "sweep, data 00 5A 03   ")?;
    sweep_row(&rt, &mut image, dose, b"\x00\x5A\x03")?;
    text(&rt, "sweep, 2,024 bytes     ")?;
    sweep_row(&rt, &mut image, dose, &large)?;
    name_table(&rt, overlong, old)
}
