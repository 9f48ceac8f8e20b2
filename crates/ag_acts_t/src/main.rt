//! Reads event lines from standard input, and prints of each what one replica is told to do. A line that is no event is printed
//! as it is.
#![tactic(auto)]

mod events;
mod texts;
mod words;

use ag_acts::laws;
use ag_acts::told::told_of;
use ag_model::event::Event;
use std::alloc::{AllocError, Global};
use std::io;

/// What one replica is told to do by an event, as text.
fn told(alloc: Global, event: &Event) -> Result<String, AllocError> {
    match told_of(event) {
        Some(told) => texts::told_text(alloc, &told),
        None => String::from_str(alloc, "nobody"),
    }
}

/// Prints what one replica is told to do by a line.
fn play(rt: &HostRuntime, line: &str) -> io::Result<()> {
    let alloc = rt.alloc();
    match events::event_of(alloc, line)? {
        Some(event) => {
            let text = told(alloc, &event)?;
            println!(rt; "{line}: {text}")
        }
        None => println!(rt; "{line}"),
    }
}

fn main(rt: HostRuntime) -> io::Result<()> {
    laws::told_exactly();
    laws::told_is_done();
    laws::told_is_cut();
    for line in rt.lines(rt.alloc()) {
        play(&rt, &line?)?;
    }
    Ok(())
}
