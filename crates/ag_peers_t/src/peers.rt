//! What the steps of a script hold, and how a line is played.
use crate::captures::Leading;
use crate::words::next_word;
use crate::{captures, clusters, links, repairs, sessions};
use ag_link::Link;
use ag_model::config::Register;
use std::alloc::{AllocError, Global};

/// The register, what a primary knows, and a link.
#[derive(Drop)]
pub struct Peers {
    register: Register,
    leading: Leading,
    link: Link,
}

impl Peers {
    /// What is held at first.
    pub fn new(alloc: Global) -> Peers {
        Peers {
            register: Register {
                term: 1,
                primary: 0,
                synced: 0,
                suspended: 0,
            },
            leading: captures::new(alloc),
            link: Link::new(alloc),
        }
    }

    /// Plays a step.
    fn step(&mut self, alloc: Global, step: &str) -> Result<String, AllocError> {
        let mut words = step.split_whitespace();
        let name = next_word(&mut words);
        if let Some(text) = clusters::step(alloc, &mut self.register, name, &mut words)? {
            return Ok(text);
        }
        if let Some(text) = links::step(alloc, &mut self.link, name, &mut words)? {
            return Ok(text);
        }
        if let Some(text) = repairs::step(alloc, name, &mut words)? {
            return Ok(text);
        }
        if let Some(text) = sessions::step(alloc, name, &mut words)? {
            return Ok(text);
        }
        match captures::step(alloc, &mut self.leading, name, &mut words)? {
            Some(text) => Ok(text),
            None => format!(in alloc; "no step"),
        }
    }

    /// Plays the steps of a line.
    pub fn play(&mut self, alloc: Global, line: &str) -> Result<String, AllocError> {
        let mut text = String::new(alloc);
        for (i, step) in line.split(';').enumerate() {
            if i > 0 {
                text.push_str("; ")?;
            }
            let told = self.step(alloc, step)?;
            text.push_str(told.as_str())?;
        }
        Ok(text)
    }
}
