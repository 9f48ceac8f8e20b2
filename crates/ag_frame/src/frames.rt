//! `Frames`.
ghost use Rattle.std.specs.Prelude.{◌≡◌, ◌<◌, ◌-◌, slice_get, [], ◌∷◌, ◌++◌, IfOk, OnOk, None, Some, is_some, drop, length, nat_eq, cond, option_map};
ghost use Rattle.std.specs.Option.{option_copied_mut};
ghost use Rattle.std.specs.Borrow.{sem};
ghost use Rattle.std.specs.List.{AllByRecursion, IsDistinct};
ghost use Rattle.std.specs.Map.{keys_of};
ghost use Rattle.lru.specs.LruCache.{last_entry};
ghost use Rattle.ag_frame.specs.Frames.{shown, all_shown, holder, page_of, without, AllBelow};
ghost use Rattle.ag_frame.specs.declared.frame.Frame.TheVariants.{Free};

use crate::frame::Frame;
use ag_model::value::NoMemory;
use lru::LruCache;
use std::alloc::Global;
use std::marker::Model;
use std::mem;
use std::num::NonZeroUsize;

/// Frames for pages. A clause sees them as the list of what each holds, the one used last first.
/// The keys of the cache are the numbers of the frames. All are there from the making on.
#[derive(Drop)]
pub struct Frames<T> {
    cache: LruCache<u8, Frame<T>>,
}

impl<T> Model for Frames<T> {
    ghost use Rattle.std.specs.Prelude.{ℕ, List, Option, ◌<◌};
    ghost use Rattle.std.specs.Coded.{coded_list, coded×, coded_ℕ, coded_option};
    ghost use Rattle.ag_frame.specs.Frames.{all_shown, IsNumbered};

    ghost Value = { List (Option (ℕ × T)) };

    ghost coded = { coded_list (coded_option (coded× coded_ℕ T.code)) };

    ghost view = { λ f. all_shown f.cache.entries };

    ghost invariant = { λ f. (0 < f.cache.cap) × IsNumbered f.cache.cap f.cache.entries };
}

/// The number of the frame that holds the page.
fn frame_of<T>(cache: &LruCache<u8, Frame<T>>, page: u16) -> Option<u8>
    ensures value { result ≡ holder page cache.now.entries }
    ensures distinct { IsDistinct nat_eq (keys_of cache.now.entries) }
{
    // No number stands twice.
    let _count = cache.len();
    for (number, frame) in cache.iter() {
        if frame.holds(page) {
            return Some(*number);
        }
    }
    None
}

/// The number of the frame that was used last of all.
fn last_number<T>(cache: &LruCache<u8, Frame<T>>) -> u8
    requires { 0 < length cache.now.entries }
    ensures value { Some result ≡ option_map (λ e. e.0) (last_entry cache.now.entries) }
    ensures distinct { IsDistinct nat_eq (keys_of cache.now.entries) }
{
    // No number stands twice.
    let _count = cache.len();
    match cache.peek_lru() {
        Some((number, _)) => *number,
        None => unreachable!(),
    }
}

/// Puts a free frame of a new number in front.
fn put_free<T: Drop>(cache: &mut LruCache<u8, Frame<T>>, number: u8) -> Result<(), NoMemory>
    requires new { AllBelow number cache.old.entries }
    requires room { length cache.old.entries < cache.old.cap }
    ensures entries { OnOk result (cache.new.entries ≡ (number, Free) ∷ cache.old.entries) }
    ensures cap { OnOk result (cache.new.cap ≡ cache.old.cap) }
{
    cache.put(number, Frame::Free)?;
    Ok(())
}

impl<T> Frames<T> {
    ghost use Rattle.ag_frame.specs.Lending.{LendsPage};

    /// As many free frames, at least one.
    pub fn with_frames(alloc: Global, count: u8) -> Result<Frames<T>, NoMemory>
    where
        T: Drop,
        requires { 0 < count }
        ensures count { IfOk result (λ f. length f ≡ count) }
        ensures free { IfOk result (λ f. AllByRecursion (λ frame. frame ≡ None) f) }
    {
        let cap = NonZeroUsize::new(usize::from(count)).unwrap();
        let mut cache = LruCache::new(alloc, cap)?;
        for number in 0..count {
            put_free(&mut cache, number)?;
        }
        Ok(Frames { cache })
    }

    /// Whether a frame holds the page. The order stays.
    pub fn holds(&self, page: u16) -> bool
        ensures { result ≡ is_some (page_of page self.now) }
    {
        frame_of(&self.cache, page).is_some()
    }

    /// The page, if a frame holds it. The frame is then the one used last.
    pub fn look(&mut self, page: u16) -> Option<&mut T>
        ensures* writes_back { sem 𝓛 (LendsPage T.row self.entry page result) }
        ensures value { option_copied_mut result ≡ page_of page self.old }
    {
        let number = frame_of(&self.cache, page)?;
        Some(self.cache.get_mut(&number)?.page_mut())
    }

    /// Puts a page that no frame holds into the frame used last of all, and hands back what stood there.
    pub fn admit(&mut self, page: u16, frame: T) -> Option<(u16, T)>
        requires absent { page_of page self.old ≡ None }
        ensures first { self.new ≡ Some (page, frame) ∷ drop 1 self.new }
        ensures last { self.old ≡ drop 1 self.new ++ result ∷ [] }
    {
        let number = last_number(&self.cache);
        match self.cache.get_mut(&number) {
            Some(last) => mem::replace(last, Frame::Held(page, frame)).content(),
            None => unreachable!(),
        }
    }

    /// Takes the page out of its frame, which then stands last.
    pub fn discard(&mut self, page: u16) -> Option<T>
        ensures value { result ≡ page_of page self.old }
        ensures frames { self.new ≡ cond (is_some result) (without page self.old ++ None ∷ []) self.old }
    {
        let number = frame_of(&self.cache, page)?;
        let taken = mem::replace(self.cache.peek_mut(&number)?, Frame::Free);
        self.cache.demote(&number);
        taken.page()
    }
}
