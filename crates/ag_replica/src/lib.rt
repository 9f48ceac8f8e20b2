//! A replica that is up: its data on the disk, its pages in memory, and what it knows of the others. What its acts have in common
//! stands here; the acts themselves stand in crates above, by who does them.
#![tactic(auto)]

mod accessing;
mod done;
mod fault;
mod following;
mod leading;
mod opening;
mod reading;
mod site;
mod up;
mod writing;

pub use accessing::access;
pub use done::{Done, Posting};
pub use fault::ReplicaFault;
pub use following::{Following, Snapshot};
pub use leading::{Leading, OpenTxn};
pub use reading::read_in;
pub use site::Site;
pub use up::{Standing, Up};
pub use writing::{append, mark, note, save};
