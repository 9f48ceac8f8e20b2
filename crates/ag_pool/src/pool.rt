//! The frames of all data pages, and the LSNs of the stripes.
ghost use Rattle.std.specs.Prelude.{◌≡◌, ◌+◌, ◌-◌, ◌^◌, ◌<◌, ◌≤◌, Some, None, true, false, is_some, replicate, map, set, length, IfOk, OnOk, IfErr};
ghost use Rattle.ag_rules.specs.Replica.{least, all_at};
ghost use Rattle.ag_rules.specs.ResumeMessage.{lowered};
ghost use Rattle.ag_pool.specs.Frames.{empty_frame, released, not_come, forgotten, lowered_lsns, at_lsn};
ghost use Rattle.ag_pool.specs.Redo.{redone_stripe, IsFullBy};
ghost use Rattle.ag_pool.specs.View.{PoolView, IsPool, frame, with_frame, each_frame, stripe_at, with_stripes};

use crate::fault::PoolFault;
use crate::frame::{Frame, Held, StripeLsns, empty_frame, lower_stripe};
use crate::redoing::redo_all;
use ag_model::record::Record;
use ag_model::value::{NoMemory, PageValue};
use std::alloc::Global;
use std::marker::Model;

/// A frame for each data page, rising from page 16, and the LSNs of the 16 stripes.
#[derive(Debug, Drop)]
pub struct Pool {
    pages: u16,
    frames: Vec<Frame>,
    stripes: Vec<StripeLsns>,
}

impl Model for Pool {
    ghost use Rattle.std.specs.Prelude.{map};
    ghost use Rattle.ag_pool.specs.Frames.{stripe_of};
    ghost use Rattle.ag_pool.specs.Redo.{redone_stripe, IsFullBy};
    ghost use Rattle.ag_pool.specs.View.{PoolView, IsPool};

    ghost Value = { PoolView };

    ghost view = { λ p. record { pages = p.pages; frames = p.frames.items; stripes = map stripe_of p.stripes.items } };

    ghost invariant = { λ p. IsPool (record { pages = p.pages; frames = p.frames.items; stripes = map stripe_of p.stripes.items }) };
}

/// The place of a data page among the frames.
fn place_of(page: u16) -> usize
    requires { 16 ≤ page }
    ensures place { result ≡ page - 16 }
{
    usize::from(page - 16)
}

/// So many frames with nothing in them.
fn empty_frames(alloc: Global, pages: u16) -> Result<Vec<Frame>, NoMemory>
    ensures { IfOk result (λ frames. frames.items ≡ replicate pages empty_frame) }
{
    let mut frames = Vec::new(alloc);
    for _ in 0..pages {
        frames.push(empty_frame())?;
    }
    Ok(frames)
}

/// The 16 stripes, all at one LSN.
fn stripes_at(alloc: Global, lsn: u64) -> Result<Vec<StripeLsns>, NoMemory>
    ensures { IfOk result (λ stripes. stripes.items ≡ replicate 16 (record { applied = lsn; published = lsn })) }
{
    let mut stripes = Vec::new(alloc);
    for _ in 0..16u16 {
        stripes.push(StripeLsns {
            applied: lsn,
            published: lsn,
        })?;
    }
    Ok(stripes)
}

/// The least of the stripes' applied LSNs.
fn least_applied(stripes: &[StripeLsns]) -> u64
    requires { 0 < length stripes.now }
    ensures { result ≡ least (map (λ s. s.applied) stripes.now) }
{
    let mut least = stripes[0].applied;
    for stripe in stripes {
        least = least.min(stripe.applied);
    }
    least
}

/// The least of the stripes' published LSNs.
fn least_published(stripes: &[StripeLsns]) -> u64
    requires { 0 < length stripes.now }
    ensures { result ≡ least (map (λ s. s.published) stripes.now) }
{
    let mut least = stripes[0].published;
    for stripe in stripes {
        least = least.min(stripe.published);
    }
    least
}

/// Forgets all of each page.
fn forget_frames(frames: &mut Vec<Frame>)
    ensures { frames.new.items ≡ map forgotten frames.old.items }
{
    for frame in frames.iter_mut() {
        *frame = empty_frame();
    }
}

/// Lets each held page go.
fn release_frames(frames: &mut Vec<Frame>)
    ensures { frames.new.items ≡ map released frames.old.items }
{
    for frame in frames.iter_mut() {
        frame.held = None;
    }
}

/// Says of each page that it didn't come.
fn none_came_of(frames: &mut Vec<Frame>)
    ensures { frames.new.items ≡ map not_come frames.old.items }
{
    for frame in frames.iter_mut() {
        frame.came = false;
    }
}

/// Lowers both LSNs of each stripe.
fn lower_stripes(stripes: &mut Vec<StripeLsns>, lsn: u64)
    ensures { stripes.new.items ≡ map (lowered_lsns lsn) stripes.old.items }
{
    for stripe in stripes.iter_mut() {
        lower_stripe(stripe, lsn);
    }
}

/// Puts both LSNs of each stripe at one LSN.
fn stand_stripes(stripes: &mut Vec<StripeLsns>, lsn: u64)
    ensures { stripes.new.items ≡ map (at_lsn lsn) stripes.old.items }
{
    for stripe in stripes.iter_mut() {
        *stripe = StripeLsns {
            applied: lsn,
            published: lsn,
        };
    }
}

impl Pool {
    /// A pool of so many data pages, with nothing read in, and its stripes at an LSN.
    pub fn new(alloc: Global, pages: u16, lsn: u64) -> Result<Pool, NoMemory>
        requires low { 16 ≤ pages }
        requires high { pages ≤ 2048 }
        ensures { IfOk result (λ p. p ≡ record { pages = pages; frames = replicate pages empty_frame; stripes = all_at lsn }) }
    {
        let frames = empty_frames(alloc, pages)?;
        let stripes = stripes_at(alloc, lsn)?;
        Ok(Pool {
            pages,
            frames,
            stripes,
        })
    }

    /// How many data pages there are.
    pub fn pages(&self) -> u16
        ensures answer { result ≡ self.now.pages }
        ensures low { 16 ≤ result }
        ensures high { result ≤ 2048 }
        ensures whole { IsPool self.now }
    {
        self.pages
    }

    /// The frame of a page.
    pub fn frame(&self, page: u16) -> &Frame
        requires low { 16 ≤ page }
        requires high { page < 16 + self.now.pages }
        ensures { result.now ≡ frame self.now page }
    {
        &self.frames[place_of(page)]
    }

    /// Whether the value of a page was read in.
    pub fn has(&self, page: u16) -> bool
        requires low { 16 ≤ page }
        requires high { page < 16 + self.now.pages }
        ensures { result ≡ is_some (frame self.now page).value }
    {
        self.frame(page).value.is_some()
    }

    /// The value of a page that was read in.
    pub fn value(&self, page: u16) -> &PageValue
        requires low { 16 ≤ page }
        requires high { page < 16 + self.now.pages }
        requires kept { is_some (frame self.now page).value ≡ true }
        ensures { (frame self.now page).value ≡ Some result.now }
    {
        match &self.frame(page).value {
            Some(value) => value,
            None => unreachable!(),
        }
    }

    /// The LSN up to which a stripe has redone.
    pub fn applied(&self, x: u8) -> u64
        requires { x < 16 }
        ensures { result ≡ (stripe_at self.now x).applied }
    {
        self.stripes[usize::from(x)].applied
    }

    /// The LSN that a stripe has published.
    pub fn published(&self, x: u8) -> u64
        requires { x < 16 }
        ensures { result ≡ (stripe_at self.now x).published }
    {
        self.stripes[usize::from(x)].published
    }

    /// Keeps the value of a page.
    pub fn keep(&mut self, page: u16, value: PageValue)
        requires low { 16 ≤ page }
        requires high { page < 16 + self.old.pages }
        ensures { self.new ≡ with_frame self.old page (record (frame self.old page) { value = Some value }) }
    {
        self.frames[place_of(page)].value = Some(value);
    }

    /// Gives the value of a page up: it is not dirty any more.
    pub fn give_up(&mut self, page: u16)
        requires low { 16 ≤ page }
        requires high { page < 16 + self.old.pages }
        ensures { self.new ≡ with_frame self.old page (record (frame self.old page) { value = None; dirty = false }) }
    {
        let frame = &mut self.frames[place_of(page)];
        frame.value = None;
        frame.dirty = false;
    }

    /// Forgets all of a page.
    pub fn forget(&mut self, page: u16)
        requires low { 16 ≤ page }
        requires high { page < 16 + self.old.pages }
        ensures { self.new ≡ with_frame self.old page empty_frame }
    {
        self.frames[place_of(page)] = empty_frame();
    }

    /// Says that the image of a page was written.
    pub fn clean(&mut self, page: u16)
        requires low { 16 ≤ page }
        requires high { page < 16 + self.old.pages }
        ensures { self.new ≡ with_frame self.old page (record (frame self.old page) { dirty = false }) }
    {
        self.frames[place_of(page)].dirty = false;
    }

    /// Says that a page waits for a repair.
    pub fn pend(&mut self, page: u16)
        requires low { 16 ≤ page }
        requires high { page < 16 + self.old.pages }
        ensures { self.new ≡ with_frame self.old page (record (frame self.old page) { pending = true }) }
    {
        self.frames[place_of(page)].pending = true;
    }

    /// Holds a page that was given ahead of its stripe.
    pub fn hold(&mut self, page: u16, held: Held)
        requires low { 16 ≤ page }
        requires high { page < 16 + self.old.pages }
        ensures { self.new ≡ with_frame self.old page (record (frame self.old page) { held = Some held }) }
    {
        self.frames[place_of(page)].held = Some(held);
    }

    /// Says that a page came.
    pub fn come(&mut self, page: u16)
        requires low { 16 ≤ page }
        requires high { page < 16 + self.old.pages }
        ensures { self.new ≡ with_frame self.old page (record (frame self.old page) { came = true }) }
    {
        self.frames[place_of(page)].came = true;
    }

    /// The least LSN up to which a stripe has redone.
    pub fn least_applied(&self) -> u64
        ensures { result ≡ least (map (λ s. s.applied) self.now.stripes) }
    {
        least_applied(self.stripes.as_slice())
    }

    /// The least LSN that a stripe has published.
    pub fn front(&self) -> u64
        ensures { result ≡ least (map (λ s. s.published) self.now.stripes) }
    {
        least_published(self.stripes.as_slice())
    }

    /// Forgets all of each page.
    pub fn forget_all(&mut self)
        ensures { self.new ≡ each_frame forgotten self.old }
    {
        forget_frames(&mut self.frames);
    }

    /// Lets each held page go.
    pub fn release(&mut self)
        ensures { self.new ≡ each_frame released self.old }
    {
        release_frames(&mut self.frames);
    }

    /// Says of each page that it didn't come.
    pub fn none_came(&mut self)
        ensures { self.new ≡ each_frame not_come self.old }
    {
        none_came_of(&mut self.frames);
    }

    /// A stripe publishes the LSN up to which it has redone.
    pub fn publish(&mut self, x: u8)
        requires { x < 16 }
        ensures { self.new ≡ with_stripes self.old (set self.old.stripes x (record (stripe_at self.old x) { published = (stripe_at self.old x).applied })) }
    {
        let stripe = &mut self.stripes[usize::from(x)];
        stripe.published = stripe.applied;
    }

    /// Puts both LSNs of each stripe at one LSN.
    pub fn stand_all(&mut self, lsn: u64)
        ensures { self.new ≡ with_stripes self.old (all_at lsn) }
    {
        stand_stripes(&mut self.stripes, lsn);
    }

    /// Lowers both LSNs of each stripe to at most an LSN.
    pub fn lower(&mut self, lsn: u64)
        ensures { self.new ≡ with_stripes self.old (map (lowered lsn) self.old.stripes) }
    {
        lower_stripes(&mut self.stripes, lsn);
    }
    /// Redoes a stripe through the records that come next after its applied LSN, on the pages that were read in.
    /// After an error nothing is known of the pool's frames.
    pub fn redo(&mut self, x: u8, records: &[Record]) -> Result<(), PoolFault>
        requires stripe { x < 16 }
        requires small { (stripe_at self.old x).applied + length records.now < 2 ^ 64 }
        ensures redone { OnOk result (self.new ≡ redone_stripe x records.now self.old) }
        ensures full { IfErr result (IsFullBy x records.now self.old) }
    {
        let stripe = usize::from(x);
        let applied = self.stripes[stripe].applied;
        let end = redo_all(&mut self.frames, x, self.pages, applied, records)?;
        self.stripes[stripe].applied = end;
        Ok(())
    }
}
