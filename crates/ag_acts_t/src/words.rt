//! The words of an event line. A word that is missing or out of range says 0.
use ag_model::event::{Pair, PairList, Suffix, Who};
use ag_model::value::Value;
use std::alloc::{AllocError, Global};
use std::str::SplitWhitespace;

/// The words that are left of a line.
#[derive(Drop)]
pub struct Words<'a> {
    left: SplitWhitespace<'a>,
}

impl<'a> Words<'a> {
    /// The words of a text.
    pub fn new(text: &'a str) -> Words<'a> {
        Words {
            left: text.split_whitespace(),
        }
    }

    /// The next word, which is empty where there is none.
    pub fn word(&mut self) -> &'a str {
        self.left.next().unwrap_or("")
    }

    /// The replica that the next word names: `A`, `B` and so on, or `@`.
    pub fn who(&mut self) -> Who {
        match self.word() {
            "@" => Who::Primary,
            "B" => Who::Letter(1),
            "C" => Who::Letter(2),
            _ => Who::Letter(0),
        }
    }

    /// A number of up to 64 bits.
    pub fn long(&mut self) -> u64 {
        self.word().parse::<u64>().unwrap_or(0)
    }

    /// A key.
    pub fn key(&mut self) -> u32 {
        self.word().parse::<u32>().unwrap_or(0)
    }

    /// A page, or the place of a message.
    pub fn page(&mut self) -> u16 {
        self.word().parse::<u16>().unwrap_or(0)
    }

    /// A session, a stripe or a sector.
    pub fn small(&mut self) -> u8 {
        self.word().parse::<u8>().unwrap_or(0)
    }

    /// A value of one byte.
    pub fn value(&mut self) -> Value {
        let mut bytes = [0; 64];
        bytes[0] = self.small();
        Value { len: 1, bytes }
    }

    /// So many pairs as the next word says.
    pub fn pairs(&mut self, alloc: Global) -> Result<PairList, AllocError> {
        let mut pairs = PairList::new(alloc);
        for _ in 0..self.small() {
            let key = self.key();
            let value = self.value();
            pairs.push(Pair { key, value })?;
        }
        Ok(pairs)
    }

    /// The suffix that the last words say: `stop W MASK` or `fail C`, and else the event is whole.
    pub fn suffix(&mut self) -> Suffix {
        match self.word() {
            "stop" => {
                let write = self.key();
                let mask = self.long();
                Suffix::Stop { write, mask }
            }
            "fail" => Suffix::Fail { call: self.key() },
            _ => Suffix::Whole,
        }
    }
}
