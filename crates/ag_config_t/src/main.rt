//! Reads heads of scenarios from standard input, and prints what each says or its first fault. A line that is no step is printed
//! as it is.
#![tactic(auto)]

mod heads;

use ag_config::laws;
use std::io;

fn main(rt: HostRuntime) -> io::Result<()> {
    laws::example_heads();
    let alloc = rt.alloc();
    for line in rt.lines(alloc) {
        let line = line?;
        match heads::play(alloc, &line)? {
            Some(said) => println!(rt; "{line}: {said}")?,
            None => println!(rt; "{line}")?,
        }
    }
    Ok(())
}
