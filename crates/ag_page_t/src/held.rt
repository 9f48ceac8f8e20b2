//! What a script holds between its steps, and how a line is played.
use crate::home::ReadOnly;
use crate::words::{at, byte, numbers};
use crate::{building, edits, home, images, showing};
use ag_model::value::PageValue;
use ag_page::Image;
use std::alloc::Global;
use std::io;

/// One page, one image and one home of images.
#[derive(Drop)]
pub struct Held {
    value: PageValue,
    image: Image,
    home: ReadOnly,
}

/// What a script begins with.
pub fn nothing(alloc: Global) -> Held {
    Held {
        value: building::page(alloc, &[]),
        image: [[0; 512]; 16],
        home: home::filled(0),
    }
}

/// Plays a step that makes the page, edits it or asks it.
fn on_page(rt: &HostRuntime, v: &mut PageValue, verb: &str, n: &[u64]) -> io::Result<()> {
    match verb {
        "page" => *v = building::page(rt.alloc(), n),
        "put_version" => building::put_version(v, n)?,
        "del_version" => building::del_version(v, n)?,
        "put_versions" => building::put_versions(v, n)?,
        "put" => print!(rt; ": {:?}", edits::put_on(v, n))?,
        "del" => print!(rt; ": {:?}", edits::del_on(v, n))?,
        "puts" => print!(rt; ": {}", edits::puts(v, n))?,
        "stamp" => edits::stamp_on(v, n),
        "abort" => edits::abort_on(v, n),
        "trim" => edits::trim_on(v, n),
        "row" => showing::row(rt, &edits::row(v, n))?,
        "versions" => showing::versions(rt, v)?,
        _ => {}
    }
    Ok(())
}

/// Plays a step on the image or on the home.
fn on_image(rt: &HostRuntime, held: &mut Held, verb: &str, n: &[u64]) -> io::Result<()> {
    match verb {
        "fits" => print!(rt; ": {}", images::fits_one(&held.value))?,
        "image" => images::write(&held.value, byte(at(n, 0)), &mut held.image),
        "fill" => held.image = [[byte(at(n, 0)); 512]; 16],
        "poke" => images::poke(&mut held.image, n),
        "marks" => print!(rt; ": {:?}", images::marks_of(&held.image))?,
        "bytes" => images::bytes(rt, &held.image, n)?,
        "changed" => images::changed(rt, &held.image, n)?,
        "read" => images::read(rt, &held.value, &held.image)?,
        "home" => held.home = home::filled(byte(at(n, 0))),
        "home_poke" => home::poke(&mut held.home, n),
        "fetch" => print!(rt; ": {:?}", home::fetch(&mut held.home, n, &mut held.image))?,
        "put_back" => print!(rt; ": {:?}", home::put_back(&mut held.home, n, &held.image))?,
        _ => on_page(rt, &mut held.value, verb, n)?,
    }
    Ok(())
}

/// Plays a line, and prints what it gave, if anything.
pub fn play(rt: &HostRuntime, held: &mut Held, line: &str) -> io::Result<()> {
    let n = numbers(rt.alloc(), line)?;
    let verb = line.split_whitespace().next().unwrap_or("");
    if verb == "laws" {
        ag_page::laws::images();
        ag_version::laws::untouched();
    }
    on_image(rt, held, verb, &n)
}
