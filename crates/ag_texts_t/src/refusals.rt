//! Each refusal as text.
use crate::printing::print_line;
use ag_model::answer::{Answer, Refusal};
use std::io;

/// Prints refusals, each on a line.
fn print_each(rt: &HostRuntime, refusals: &[Refusal]) -> io::Result<()> {
    for refusal in refusals {
        print_line(rt, &Answer::No(*refusal))?;
    }
    Ok(())
}

/// Prints the refusals that name a replica or a state.
fn print_replicas(rt: &HostRuntime) -> io::Result<()> {
    print_each(
        rt,
        &[
            Refusal::Down { node: 1 },
            Refusal::NotPrimary {
                node: 0,
                primary: 1,
            },
            Refusal::NotSecondary { node: 0 },
            Refusal::NotReadable { state: 3 },
            Refusal::WrongState { state: 0 },
            Refusal::CutOff { node: 0 },
            Refusal::Suspended { node: 0 },
            Refusal::NotConnected { node: 4 },
            Refusal::NoTxn { node: 0, txn: 2 },
            Refusal::NoMessage { node: 0, to: 1 },
            Refusal::LinkFull { node: 0, to: 1 },
            Refusal::NotYet { lsn: 3, node: 0 },
            Refusal::NotSynchronised { node: 1 },
            Refusal::NoTarget,
            Refusal::Unhardened { count: 2 },
            Refusal::Spent,
            Refusal::Nothing,
        ],
    )
}

/// Prints the refusals that say what is full or held.
fn print_limits(rt: &HostRuntime) -> io::Result<()> {
    print_each(
        rt,
        &[
            Refusal::PageFull { need: 61, free: 60 },
            Refusal::BufferFull { need: 61, free: 60 },
            Refusal::LogFull { need: 3, free: 2 },
            Refusal::Held {
                horizon: 175,
                limit: 1,
            },
        ],
    )
}

/// Prints the refusals that name a transaction, a term or LSNs.
fn print_numbers(rt: &HostRuntime) -> io::Result<()> {
    print_each(
        rt,
        &[
            Refusal::Locked { txn: 1 },
            Refusal::Conflict {
                commit: 3,
                snapshot: 1,
            },
            Refusal::Behind { front: 1, seen: 3 },
            Refusal::OldTerm { term: 1, seen: 2 },
            Refusal::TooOld {
                snapshot: 3,
                horizon: 5,
            },
            Refusal::Gap {
                expected: 2,
                first: 4,
            },
            Refusal::Wait {
                applied: 1,
                asked: 3,
            },
            Refusal::NotUndone {
                hardened: 3,
                undo: 6,
            },
        ],
    )
}

/// Prints the refusals that name a page.
fn print_pages(rt: &HostRuntime) -> io::Result<()> {
    print_each(
        rt,
        &[
            Refusal::Unreadable { page: 16 },
            Refusal::Torn { page: 21 },
            Refusal::Pending { page: 21 },
            Refusal::NotNoted { page: 1016 },
        ],
    )
}

/// Prints each refusal.
pub fn print_refusals(rt: &HostRuntime) -> io::Result<()> {
    print_replicas(rt)?;
    print_limits(rt)?;
    print_numbers(rt)?;
    print_pages(rt)
}
