//! Answers of each kind as text.
use crate::printing::{print_line, print_lines};
use crate::refusals;
use ag_model::answer::{Answer, Cell, Refusal, Role, SuspectRow};
use ag_model::list::ListOf;
use ag_model::value::{Change, Value, Version};
use std::io;

const AA: Value = Value {
    len: 1,
    bytes: [0xaa; 64],
};

const BB: Value = Value {
    len: 1,
    bytes: [0xbb; 64],
};

const FIVES: Value = Value {
    len: 2,
    bytes: [0x05; 64],
};

const EMPTY: Value = Value {
    len: 0,
    bytes: [0; 64],
};

/// Prints the answers of transactions.
fn print_transactions(rt: &HostRuntime) -> io::Result<()> {
    print_lines(
        rt,
        &[
            Answer::Txn { txn: 1 },
            Answer::OwnRow { value: AA },
            Answer::OwnRow { value: EMPTY },
            Answer::OwnAbsent,
            Answer::Lsn { lsn: 3 },
            Answer::Ended,
            Answer::Hardened { lsn: 23 },
            Answer::SyncAt { lsn: 5 },
            Answer::LocalAt { lsn: 3 },
            Answer::Row {
                front: 3,
                value: FIVES,
            },
            Answer::Absent { front: 1 },
            Answer::Snap { front: 3 },
            Answer::Closed,
        ],
    )
}

/// Prints the answers of messages.
fn print_messages(rt: &HostRuntime) -> io::Result<()> {
    print_lines(
        rt,
        &[
            Answer::Sent { lsn: 3 },
            Answer::Lost,
            Answer::Reported,
            Answer::Asked,
            Answer::Hello { fork: 3 },
            Answer::State { state: 3, end: 3 },
            Answer::Known { lsn: 5 },
            Answer::Refused { page: 21 },
            Answer::Gave { page: 21, lsn: 3 },
            Answer::Installed { page: 1016, lsn: 1 },
            Answer::Holding { page: 21, lsn: 5 },
            Answer::NoPage { page: 21 },
            Answer::No(Refusal::Gap {
                expected: 2,
                first: 4,
            }),
        ],
    )
}

/// How a replica started, at LSNs that are all the same.
fn started(role: Role, lsn: u64) -> Answer {
    Answer::Started {
        role,
        term: 1,
        end: lsn,
        front: lsn,
    }
}

/// How a replica stands whose log ends at 3.
fn status(role: Role, state: u8, term: u64, front: u64) -> Answer {
    Answer::Status {
        role,
        state,
        term,
        end: 3,
        front,
    }
}

/// Prints the answers of replicas.
fn print_replicas(rt: &HostRuntime) -> io::Result<()> {
    print_lines(
        rt,
        &[
            Answer::Applied { lsn: 3 },
            Answer::Raised { lsn: 3 },
            Answer::Front { lsn: 3 },
            Answer::Flushed { lsn: 3 },
            Answer::Crashed,
            started(Role::Secondary, 3),
            started(Role::Primary, 1),
            Answer::Spoiled,
            Answer::PageBad,
            status(Role::Primary, 2, 1, 3),
            status(Role::Secondary, 4, 2, 0),
            Answer::Cut,
            Answer::Mended,
        ],
    )
}

/// Prints the answers of the cluster.
fn print_cluster(rt: &HostRuntime) -> io::Result<()> {
    print_lines(
        rt,
        &[
            Answer::Joined {
                term: 3,
                primary: 2,
            },
            Answer::Resumed,
            Answer::Synchronised,
            Answer::TimedOut,
            Answer::Primary {
                node: 1,
                term: 2,
                lsn: 4,
            },
            Answer::Reverted { lsn: 6 },
            Answer::DeviceFailed { node: 1, step: 0 },
        ],
    )
}

/// Prints suspect lists.
fn print_suspects(rt: &HostRuntime) -> io::Result<()> {
    let alloc = rt.alloc();
    let row = SuspectRow {
        page: 21,
        kind: 3,
        repaired: false,
        count: 1,
    };
    let repaired = SuspectRow {
        page: 16,
        kind: 1,
        repaired: true,
        count: 4294967295,
    };
    let rows = ListOf::from_vec(Vec::from_array(alloc, [row, repaired])?);
    print_line(rt, &Answer::Suspects { rows })?;
    let rows = ListOf::new(alloc);
    print_line(rt, &Answer::Suspects { rows })
}

/// A version of key 5.
fn version(lsn: u64, txn: u64, commit: u64, change: Change) -> Version {
    Version {
        lsn,
        txn,
        commit,
        key: 5,
        change,
    }
}

/// Prints pages.
fn print_pages(rt: &HostRuntime) -> io::Result<()> {
    let alloc = rt.alloc();
    let three = [
        version(2, 1, 3, Change::Put(AA)),
        version(5, 2, 6, Change::Put(BB)),
        version(7, 3, 0, Change::Del),
    ];
    let page = Answer::Page {
        lsn: 7,
        horizon: 0,
        versions: ListOf::from_vec(Vec::from_array(alloc, three)?),
    };
    print_line(rt, &page)?;
    let page = Answer::Page {
        lsn: 0,
        horizon: 0,
        versions: ListOf::new(alloc),
    };
    print_line(rt, &page)
}

/// Prints sectors and scripted stops.
fn print_stops(rt: &HostRuntime) -> io::Result<()> {
    let alloc = rt.alloc();
    let cells = [Cell::Mark(1), Cell::Lost, Cell::Mark(255)];
    let cells = ListOf::from_vec(Vec::from_array(alloc, cells)?);
    print_line(rt, &Answer::Sectors { cells })?;
    let stopped = Answer::Stopped {
        write: 1,
        step: 0,
        torn: ListOf::from_vec(Vec::from_array(alloc, [21, 37])?),
    };
    print_line(rt, &stopped)?;
    let stopped = Answer::Stopped {
        write: 1,
        step: 0,
        torn: ListOf::new(alloc),
    };
    print_line(rt, &stopped)
}

/// Prints the answers of one kind below its name.
pub fn print_table(rt: &HostRuntime, name: &str) -> io::Result<()> {
    println!(rt; "answers {name}")?;
    match name {
        "transactions" => print_transactions(rt),
        "messages" => print_messages(rt),
        "replicas" => print_replicas(rt),
        "cluster" => print_cluster(rt),
        "refusals" => refusals::print_refusals(rt),
        "suspects" => print_suspects(rt),
        "pages" => print_pages(rt),
        "stops" => print_stops(rt),
        _ => Ok(()),
    }
}
