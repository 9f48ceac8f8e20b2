//! Reads event lines from standard input, and prints of each what is printed of its event, and whether that line is read as a
//! script and printed again the same. A line that is no event is printed as it is.
#![tactic(auto)]

mod events;
mod printing;
mod words;

use ag_events::laws;
use ag_model::event::Event;
use std::io;

/// Prints an event as a line, and what comes of reading that line.
fn print_both(rt: &HostRuntime, event: &Event) -> io::Result<()> {
    let line = printing::line_of(rt.alloc(), event)?;
    let again = printing::again(rt.alloc(), &line)?;
    let said = if again == line {
        "the same again"
    } else {
        again.trim_end()
    };
    println!(rt; "{}: {said}", line.trim_end())
}

fn main(rt: HostRuntime) -> io::Result<()> {
    laws::words_say();
    laws::line_says();
    laws::script_says();
    for line in rt.lines(rt.alloc()) {
        let line = line?;
        match events::event_of(rt.alloc(), &line)? {
            Some(event) => print_both(&rt, &event)?,
            None => println!(rt; "{line}")?,
        }
    }
    Ok(())
}
