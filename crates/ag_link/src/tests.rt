//! Messages by their numbers, and the limit.
use super::*;
use std::alloc::Global;
use std::test::*;

/// A message of one byte.
fn message(alloc: Global, byte: u8) -> Result<MessageBytes, LinkFault> {
    let mut bytes = MessageBytes::new(alloc);
    bytes.push(byte)?;
    Ok(bytes)
}

/// A link with the messages of these bytes.
fn link_of(alloc: Global, bytes: &[u8]) -> Result<Link, LinkFault> {
    let mut link = Link::new(alloc);
    for byte in bytes {
        link.send(message(alloc, *byte)?)?;
    }
    Ok(link)
}

/// The byte of a message.
fn byte_of(answer: Result<MessageBytes, LinkFault>) -> Result<u8, LinkFault> {
    let message = answer?;
    message
        .as_slice()
        .first()
        .copied()
        .ok_or(LinkFault::NoSuchMessage)
}

/// Whether the messages of a link are these, the oldest first.
fn drains_to(mut link: Link, bytes: &[u8]) -> bool {
    if link.len() != bytes.len() {
        return false;
    }
    for byte in bytes {
        if byte_of(link.take(1)) != Ok(*byte) {
            return false;
        }
    }
    link.is_empty()
}

#[test]
fn numbers_count_from_the_oldest(rt: HostRuntime) -> Result<(), Fail> {
    let alloc = rt.alloc();
    for (k, want, left) in [
        (0, Err(LinkFault::NoSuchMessage), [7, 8, 9].as_slice()),
        (1, Ok(7), [8, 9].as_slice()),
        (2, Ok(8), [7, 9].as_slice()),
        (3, Ok(9), [7, 8].as_slice()),
        (4, Err(LinkFault::NoSuchMessage), [7, 8, 9].as_slice()),
        (65535, Err(LinkFault::NoSuchMessage), [7, 8, 9].as_slice()),
    ] {
        let mut link = link_of(alloc, &[7, 8, 9])?;
        assert_eq!(rt; byte_of(link.copy(k)), want, "{k}");
        assert_eq!(rt; link.len(), 3, "{k}");
        assert_eq!(rt; byte_of(link.take(k)), want, "{k}");
        let mut other = link_of(alloc, &[7, 8, 9])?;
        assert_eq!(rt; other.drop_at(k).is_ok(), want.is_ok(), "{k}");
        assert!(rt; drains_to(link, left), "{k}");
        assert!(rt; drains_to(other, left), "{k}");
    }
    Ok(())
}

#[test]
fn a_link_holds_1024(rt: HostRuntime) -> Result<(), Fail> {
    let alloc = rt.alloc();
    let mut link = Link::new(alloc);
    for i in 0..1024 {
        assert!(rt; !link.is_full(), "{i}");
        assert_eq!(rt; link.send(message(alloc, 1)?), Ok(()), "{i}");
    }
    assert!(rt; link.is_full());
    assert_eq!(rt; link.send(message(alloc, 2)?), Err(LinkFault::LinkFull));
    assert_eq!(rt; link.len(), 1024);
    assert_eq!(rt; byte_of(link.copy(1024)), Ok(1));
    assert_eq!(rt; link.drop_at(1), Ok(()));
    assert_eq!(rt; link.send(message(alloc, 3)?), Ok(()));
    assert_eq!(rt; byte_of(link.take(1024)), Ok(3));
    Ok(())
}
