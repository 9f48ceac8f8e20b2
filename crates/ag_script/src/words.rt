//! The words of a line, from left to right.
ghost use Rattle.std.specs.Prelude.{◌≡◌, ◌∷◌, ◌+◌, ◌-◌, ◌^◌, ◌≤◌, [], None, Some, MatchOption, IfSome};
ghost use Rattle.ag_script.specs.Lines.{words};
ghost use Rattle.ag_script.specs.ReadWord.{who_at, other_at, number_at, value_at};
ghost use Rattle.ag_script.specs.ReadWords.{Reads, word_by, key_by, suffix_at, stop_at, fail_at};

use crate::find::find;
use crate::word::{mask_of, number_of, value_of, who_of};
use ag_model::config::Config;
use ag_model::event::{Suffix, Who};
use ag_model::value::Value;
use std::marker::Model;

const MAX_U32: u64 = 4_294_967_295;

/// The words that are left of a line.
#[derive(Drop)]
pub(crate) struct Words<'a> {
    left: Option<&'a [u8]>,
}

impl<'a> Model for Words<'a> {
    ghost use Rattle.std.specs.Prelude.{ℕ, List};
    ghost use Rattle.ag_script.specs.ReadWords.{words_left};

    ghost Value = { List (List ℕ) };

    ghost view = { λ s. words_left s.left };
}

impl<'a> Words<'a> {
    /// The words of a line.
    pub fn new(line: &'a [u8]) -> Words<'a>
        ensures { result ≡ words line.now }
    {
        Words { left: Some(line) }
    }

    /// The next word.
    pub fn word(&mut self) -> Option<&'a [u8]>
        ensures { MatchOption result (self.old ≡ []) (λ word. self.old ≡ word.now ∷ self.new) }
    {
        let line = self.left?;
        match find(line, b' ') {
            None => {
                self.left = None;
                Some(line)
            }
            Some(at) => {
                self.left = Some(&line[at + 1..]);
                Some(&line[..at])
            }
        }
    }

    /// A replica.
    pub fn node(&mut self, c: &Config) -> Option<Who>
        ensures { Reads result self.new (word_by (who_at c.now) self.old) }
    {
        let word = self.word()?;
        who_of(word, c)
    }

    /// A replica by another word than the first.
    pub fn other(&mut self, c: &Config, first: &Who) -> Option<Who>
        ensures { Reads result self.new (word_by (other_at c.now first.now) self.old) }
    {
        let word = self.word()?;
        let who = who_of(word, c)?;
        if who == *first { None } else { Some(who) }
    }

    /// A number from low to high.
    fn number(&mut self, low: u64, high: u64) -> Option<u64>
        ensures reads { Reads result self.new (word_by (number_at low high) self.old) }
        ensures low { IfSome result (λ n. low ≤ n) }
        ensures high { IfSome result (λ n. n ≤ high) }
    {
        let word = self.word()?;
        number_of(word, low, high)
    }

    /// A transaction number or an LSN.
    pub fn long(&mut self) -> Option<u64>
        ensures { Reads result self.new (word_by (number_at 0 (2 ^ 64 - 1)) self.old) }
    {
        self.number(0, u64::MAX)
    }

    /// A key.
    pub fn key(&mut self) -> Option<u32>
        ensures { Reads result self.new (key_by self.old) }
    {
        let key = self.number(0, MAX_U32)?;
        Some(key as u32)
    }

    /// A key, where one comes next. Else no word is taken.
    pub fn next_key(&mut self) -> Option<u32>
        ensures same { MatchOption result (self.new ≡ self.old) (λ k. key_by self.old ≡ Some (k, self.new)) }
        ensures none { MatchOption result (key_by self.old ≡ None) (λ k. key_by self.old ≡ Some (k, self.new)) }
    {
        let left = self.left;
        let key = self.key();
        if key.is_none() {
            self.left = left;
        }
        key
    }

    /// A page of the group.
    pub fn page(&mut self, c: &Config) -> Option<u16>
        requires { c.now.pages ≤ 2048 }
        ensures { Reads result self.new (word_by (number_at 16 (15 + c.now.pages)) self.old) }
    {
        let page = self.number(16, 15 + u64::from(c.pages))?;
        Some(page as u16)
    }

    /// A stripe, or a sector of a page: 0 to 15.
    pub fn sixteenth(&mut self) -> Option<u8>
        ensures { Reads result self.new (word_by (number_at 0 15) self.old) }
    {
        let number = self.number(0, 15)?;
        Some(number as u8)
    }

    /// A session.
    pub fn session(&mut self) -> Option<u8>
        ensures { Reads result self.new (word_by (number_at 0 63) self.old) }
    {
        let session = self.number(0, 63)?;
        Some(session as u8)
    }

    /// A message, counted from 1 from the oldest in flight.
    pub fn message(&mut self) -> Option<u16>
        ensures { Reads result self.new (word_by (number_at 1 1024) self.old) }
    {
        let number = self.number(1, 1024)?;
        Some(number as u16)
    }

    /// A value.
    pub fn value(&mut self) -> Option<Value>
        ensures { Reads result self.new (word_by value_at self.old) }
    {
        let word = self.word()?;
        value_of(word)
    }

    /// The suffix, with which the line ends.
    #[tactic(auto, unfolding(crate::specs::ReadWords::suffix_at))]
    pub fn suffix(&mut self) -> Option<Suffix>
        ensures { result ≡ suffix_at self.old }
    {
        let Some(word) = self.word() else {
            return Some(Suffix::Whole);
        };
        if word == b"stop".as_slice() {
            self.stop()
        } else if word == b"fail".as_slice() {
            self.fail()
        } else {
            None
        }
    }

    fn stop(&mut self) -> Option<Suffix>
        ensures { result ≡ stop_at self.old }
    {
        let write = self.number(1, MAX_U32)? as u32;
        let word = self.word()?;
        let mask = mask_of(word)?;
        if self.word().is_some() {
            return None;
        }
        Some(Suffix::Stop { write, mask })
    }

    fn fail(&mut self) -> Option<Suffix>
        ensures { result ≡ fail_at self.old }
    {
        let call = self.number(1, MAX_U32)? as u32;
        if self.word().is_some() {
            return None;
        }
        Some(Suffix::Fail { call })
    }
}
