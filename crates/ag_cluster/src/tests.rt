//! Moves of the register by cases.
ghost use Rattle.std.specs.Prelude.{◌≡◌};

use super::*;
use ag_model::config::Register;
use std::test::*;

/// A register of a term.
fn register(term: u64, primary: u8, synced: u16, suspended: u16) -> Register
    ensures { result.term ≡ term }
{
    Register {
        term,
        primary,
        synced,
        suspended,
    }
}

#[test]
fn the_synchronised_set(rt: HostRuntime) {
    let stale = Err(ClusterFault::StaleTerm { asked: 2, now: 1 });
    // A set, a replica, and the set with it and without it.
    for (set, n, with, without) in [
        (0b00, 1, 0b10, 0b00),
        (0b10, 1, 0b10, 0b00),
        (0b110, 1, 0b110, 0b100),
        (0b100, 1, 0b110, 0b100),
        (0, 15, 0x8000, 0),
        (0xffff, 15, 0xffff, 0x7fff),
        (0xffff, 0, 0xffff, 0xfffe),
    ] {
        let n = n % 16;
        let mut r = register(1, 0, set, 0b1000);
        assert_eq!(rt; add_sync(&mut r, 2, n), stale, "{set} {n}");
        assert_eq!(rt; remove_sync(&mut r, 2, n), stale, "{set} {n}");
        assert_eq!(rt; r, register(1, 0, set, 0b1000), "{set} {n}");
        assert_eq!(rt; add_sync(&mut r, 1, n), Ok(()), "{set} {n}");
        assert_eq!(rt; r, register(1, 0, with, 0b1000), "{set} {n}");
        assert!(rt; members::has_member(with, n), "{set} {n}");
        assert_eq!(rt; remove_sync(&mut r, 1, n), Ok(()), "{set} {n}");
        assert_eq!(rt; r, register(1, 0, without, 0b1000), "{set} {n}");
        assert!(rt; !members::has_member(without, n), "{set} {n}");
    }
}

#[test]
fn a_failover_to_a_synchronised_replica(rt: HostRuntime) {
    // A register of the first term, the term of who asks, a replica, the answer and the register then.
    for (set, suspended, term, n, want, then) in [
        (0b10, 0, 1, 1, Ok(2), register(2, 1, 0, 0)),
        (0b110, 0b110, 1, 2, Ok(2), register(2, 2, 0, 0b010)),
        (
            0b00,
            0,
            1,
            1,
            Err(ClusterFault::NotSynchronised),
            register(1, 0, 0b00, 0),
        ),
        (
            0b100,
            0,
            1,
            1,
            Err(ClusterFault::NotSynchronised),
            register(1, 0, 0b100, 0),
        ),
        // The term is tried first.
        (
            0b100,
            0,
            0,
            1,
            Err(ClusterFault::StaleTerm { asked: 0, now: 1 }),
            register(1, 0, 0b100, 0),
        ),
        (
            0b10,
            0,
            2,
            1,
            Err(ClusterFault::StaleTerm { asked: 2, now: 1 }),
            register(1, 0, 0b10, 0),
        ),
    ] {
        let n = n % 16;
        let mut r = register(1, 0, set, suspended);
        assert_eq!(rt; planned(&mut r, term, n), want, "{set} {term} {n}");
        assert_eq!(rt; r, then, "{set} {term} {n}");
        let mut r = register(1, 0, set, suspended);
        assert_eq!(rt; automatic(&mut r, term, n), want, "{set} {term} {n}");
        assert_eq!(rt; r, then, "{set} {term} {n}");
    }
}

#[test]
fn forced_failovers(rt: HostRuntime) {
    // Two replicas: the old primary is suspended until it is resumed.
    let mut r = register(1, 0, 0b10, 0);
    assert_eq!(rt; forced(&mut r, 1, 2), 2);
    assert_eq!(rt; r, register(2, 1, 0, 0b01));
    resume(&mut r, 0);
    assert_eq!(rt; r, register(2, 1, 0, 0));
    resume(&mut r, 0);
    assert_eq!(rt; r, register(2, 1, 0, 0));
    // Three replicas, and one forced failover after another.
    let mut r = register(1, 0, 0b110, 0);
    assert_eq!(rt; forced(&mut r, 1, 3), 2);
    assert_eq!(rt; r, register(2, 1, 0, 0b101));
    resume(&mut r, 0);
    assert_eq!(rt; r, register(2, 1, 0, 0b100));
    let mut r = register(2, 1, 0, 0b100);
    assert_eq!(rt; forced(&mut r, 2, 3), 3);
    assert_eq!(rt; r, register(3, 2, 0, 0b011));
    // The most replicas.
    let mut r = register(9_223_372_036_854_775_807, 0, 0, 0);
    assert_eq!(rt; forced(&mut r, 15, 16), 9_223_372_036_854_775_808);
    assert_eq!(rt; r, register(9_223_372_036_854_775_808, 15, 0, 0x7fff));
}
