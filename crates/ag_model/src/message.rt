//! Messages in flight.
use crate::config::{TermList, Ticket};
use crate::record::RecordList;
use crate::value::PageValue;

/// Some records that were hardened together.
#[derive(Clone, Debug, Drop)]
pub struct Block {
    pub first: u64,
    pub term: u64,
    pub records: RecordList,
}

/// What a message says.
#[derive(Debug, Drop)]
pub enum Body {
    Hello {
        ticket: Ticket,
        end: u64,
        starts: TermList,
    },
    Resume {
        ticket: Ticket,
        fork: u64,
        end: u64,
    },
    Block(Block),
    Ack {
        hardened: u64,
        low: u64,
    },
    PageAsk {
        page: u16,
        lsn: u64,
        primary: bool,
    },
    PageGive {
        lsn: u64,
        value: PageValue,
    },
    PageNo {
        page: u16,
    },
}

/// A message in flight, with the term that its sender follows.
#[derive(Debug, Drop)]
pub struct Message {
    pub term: u64,
    pub body: Body,
}
