//! The words of an event line. A word that is missing or out of range says 0.
use ag_model::event::{Pair, PairList, Suffix, Who};
use ag_model::value::Value;
use hex::decode_to_slice;
use std::alloc::{AllocError, Global};
use std::str::SplitWhitespace;

/// The words that are left of a line.
#[derive(Drop)]
pub struct Words<'a> {
    next: &'a str,
    left: SplitWhitespace<'a>,
}

impl<'a> Words<'a> {
    /// The words of a text.
    pub fn new(text: &'a str) -> Words<'a> {
        let mut left = text.split_whitespace();
        let next = left.next().unwrap_or("");
        Words { next, left }
    }

    /// The next word, which is empty where there is none.
    pub fn word(&mut self) -> &'a str {
        let word = self.next;
        self.next = self.left.next().unwrap_or("");
        word
    }

    /// The replica that the next word names: `A` to `E`, or `@`.
    pub fn who(&mut self) -> Who {
        match self.word() {
            "@" => Who::Primary,
            "B" => Who::Letter(1),
            "C" => Who::Letter(2),
            "D" => Who::Letter(3),
            "E" => Who::Letter(4),
            _ => Who::Letter(0),
        }
    }

    /// A number of up to 64 bits.
    pub fn long(&mut self) -> u64 {
        self.word().parse::<u64>().unwrap_or(0)
    }

    /// A key.
    pub fn key(&mut self) -> u32 {
        self.word().parse::<u32>().unwrap_or(0)
    }

    /// A page, or the place of a message.
    pub fn page(&mut self) -> u16 {
        self.word().parse::<u16>().unwrap_or(0)
    }

    /// A session, a stripe or a sector.
    pub fn small(&mut self) -> u8 {
        self.word().parse::<u8>().unwrap_or(0)
    }

    /// A value in hex, or `-` for the empty one.
    pub fn value(&mut self) -> Value {
        let word = self.word().as_bytes();
        let mut bytes = [0; 64];
        let len = if word == b"-".as_slice() {
            0
        } else {
            word.len() / 2
        };
        if len > 0 && len <= 64 && decode_to_slice(word, &mut bytes[..len]).is_ok() {
            Value {
                len: (len % 256) as u8,
                bytes,
            }
        } else {
            Value {
                len: 0,
                bytes: [0; 64],
            }
        }
    }

    /// Pairs up to the suffix or the end.
    pub fn pairs(&mut self, alloc: Global) -> Result<PairList, AllocError> {
        let mut pairs = PairList::new(alloc);
        for _ in 0..8 {
            if self.next == "" || self.next == "stop" || self.next == "fail" {
                break;
            }
            let key = self.key();
            let value = self.value();
            pairs.push(Pair { key, value })?;
        }
        Ok(pairs)
    }

    /// The suffix that the last words say: `stop W MASK` or `fail C`, and else the event is whole.
    pub fn suffix(&mut self) -> Suffix {
        match self.word() {
            "stop" => {
                let write = self.key();
                let mask = u64::from_str_radix(self.word(), 16).unwrap_or(0);
                Suffix::Stop { write, mask }
            }
            "fail" => Suffix::Fail { call: self.key() },
            _ => Suffix::Whole,
        }
    }
}
