//! What a script holds between its steps, and how a line is played.
use crate::disk_steps::OneDisk;
use crate::records::Blocks;
use crate::words::{at, step_of};
use crate::{disk_steps, pages_steps, records, stripe_steps};
use ag_outside::mem_disk::MemDisk;
use ag_outside::scripted::Scripted;
use ag_pages::Pages;
use ag_pagestore::PageWrite;
use ag_stripe::{Away, Stripe, laws};
use std::alloc::Global;
use std::io;

/// A disk, the images that wait to be written to it, blocks of a log, a stripe and the pages of a replica.
#[derive(Drop)]
pub struct Held {
    disk: OneDisk,
    images: Vec<PageWrite>,
    blocks: Blocks,
    stripe: Option<Stripe<Away>>,
    pages: Option<Pages>,
}

/// What a script begins with.
pub fn nothing(alloc: Global) -> Held {
    Held {
        disk: Scripted::new(alloc, MemDisk::new(alloc, Vec::new(alloc), false)),
        images: Vec::new(alloc),
        blocks: Vec::new(alloc),
        stripe: None,
        pages: None,
    }
}

/// Plays a step on the stripe.
fn on_stripe(rt: &HostRuntime, held: &mut Held, verb: &str, n: &[u64]) -> io::Result<()> {
    if verb == "new" {
        held.stripe = stripe_steps::fresh(rt.alloc(), at(n, 0));
    }
    match held.stripe.take() {
        Some(stripe) => {
            let disk = &mut held.disk;
            let images = &mut held.images;
            let (stripe, answer) = stripe_steps::play(
                rt,
                disk,
                stripe,
                &held.blocks,
                images,
                verb,
                n,
            );
            held.stripe = Some(stripe);
            answer
        }
        None => print!(rt; " no stripe"),
    }
}

/// Plays a step on the pages.
fn on_pages(rt: &HostRuntime, held: &mut Held, verb: &str, n: &[u64]) -> io::Result<()> {
    if verb == "new" {
        held.pages = pages_steps::fresh(rt.alloc(), n);
    }
    match &mut held.pages {
        Some(pages) => pages_steps::play(rt, &mut held.disk, pages, &held.blocks, verb, n),
        None => print!(rt; " no pages"),
    }
}

/// The laws, which a step calls as any other function.
fn call_laws() {
    laws::images();
    laws::stands();
    laws::have_images();
    laws::starts();
}

/// Plays a line, and prints what it gave, if anything.
pub fn play(rt: &HostRuntime, held: &mut Held, line: &str) -> io::Result<()> {
    let step = step_of(rt.alloc(), line)?;
    let n = step.numbers.as_slice();
    match step.subject {
        "disk" => disk_steps::play(rt, &mut held.disk, step.verb, n)?,
        "image" => disk_steps::play_images(rt, &mut held.disk, &mut held.images, step.verb, n)?,
        "log" => records::play(rt.alloc(), &mut held.blocks, step.verb, n)?,
        "stripe" => on_stripe(rt, held, step.verb, n)?,
        "pages" => on_pages(rt, held, step.verb, n)?,
        "laws" => call_laws(),
        _ => {}
    }
    Ok(())
}
