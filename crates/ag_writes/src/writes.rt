//! The writes of an event, as data.
ghost use Rattle.std.specs.Prelude.{◌≡◌, if◌then◌else◌};
ghost use Rattle.ag_rules.specs.Cut.{step_of, steps_of};
ghost use Rattle.ag_writes.specs.Writes.{write_of, batch_of};

use ag_model::page_set::PageSet;
use ag_model::record::RecordList;
use std::marker::Model;

/// What the master sector is to say.
#[derive(Debug, Drop)]
pub struct MasterWords {
    pub term: u64,
    pub state: u8,
    pub incarnation: u64,
    pub redo_start: u64,
    pub undo: u64,
    pub foreign: PageSet,
}

/// One write. The master's cuts the log at an LSN, its own end where nothing is cut.
#[derive(Debug, Drop)]
pub enum Write {
    Block { new: RecordList },
    Master { master: MasterWords, log_end: u64 },
    Note { page: u16, kind: u8 },
    Repaired { page: u16 },
    Page { page: u16 },
}

impl Write {
    /// Whether it is a step: a write of a block, the master or a suspect row.
    pub fn is_step(&self) -> bool
        ensures { (if result then 1 else 0) ≡ step_of (write_of self.now) }
    {
        !matches!(self, Write::Page { .. })
    }
}

/// How many of these writes are steps.
fn steps_of(writes: &[Write]) -> usize
    ensures { result ≡ steps_of (batch_of writes.now) }
{
    let mut steps = 0;
    for write in writes {
        if write.is_step() {
            steps += 1;
        }
    }
    steps
}

/// The writes between one sync and the next, which contracts see as a batch of the rules.
#[derive(Debug, Drop)]
pub struct Batch {
    writes: Vec<Write>,
}

impl Model for Batch {
    ghost use Rattle.ag_rules.specs.Plan.{Batch as RulesBatch};
    ghost use Rattle.ag_writes.specs.Writes.{batch_of};

    ghost Value = { RulesBatch };

    ghost view = { λ b. batch_of b.writes.items };
}

impl Batch {
    /// The batch of these writes.
    pub fn new(writes: Vec<Write>) -> Batch
        ensures { result ≡ batch_of writes.items }
    {
        Batch { writes }
    }

    /// The writes.
    pub fn as_slice(&self) -> &[Write]
        ensures { batch_of result.now ≡ self.now }
    {
        self.writes.as_slice()
    }

    /// How many of its writes are steps.
    pub fn steps(&self) -> usize
        ensures { result ≡ steps_of self.now }
    {
        steps_of(self.writes.as_slice())
    }
}
