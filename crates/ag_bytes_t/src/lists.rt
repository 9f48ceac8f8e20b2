//! Lists of numbers.
use crate::words::number;
use ag_model::list::ListOf;
use ag_model::value::NoMemory;
use std::alloc::{AllocError, Global};

/// The list of the numbers of some words, pushed one by one.
fn pushed(alloc: Global, text: &str) -> Result<ListOf<u64>, NoMemory> {
    let mut list = ListOf::new(alloc);
    for word in text.split_whitespace() {
        list.push(number(Some(word)))?;
    }
    Ok(list)
}

/// The list of the numbers of some words, made of a vector.
fn made(alloc: Global, text: &str) -> Result<ListOf<u64>, AllocError> {
    let mut items = Vec::new(alloc);
    for word in text.split_whitespace() {
        items.push(number(Some(word)))?;
    }
    Ok(ListOf::from_vec(items))
}

/// How long a list is, whether it is empty, and its items.
fn said(alloc: Global, list: &ListOf<u64>) -> Result<String, AllocError> {
    format!(in alloc; "{} {} {:?}", list.len(), list.is_empty(), list.as_slice())
}

/// What two lists are, one before a comma and one after it, and what they are once the second was moved to the end of the first;
/// then the items of a copy.
pub fn joined(alloc: Global, text: &str) -> Result<String, AllocError> {
    let (front, back) = text.split_once(',').unwrap_or((text, ""));
    let Ok(mut list) = pushed(alloc, front) else {
        return format!(in alloc; "no memory");
    };
    let mut more = made(alloc, back)?;
    let before = said(alloc, &list)?;
    let apart = said(alloc, &more)?;
    list.append(&mut more)?;
    let after = said(alloc, &list)?;
    let left = said(alloc, &more)?;
    let copy = list.clone()?.into_vec();
    format!(in alloc; "{before} + {apart} = {after} + {left}, {copy:?}")
}
