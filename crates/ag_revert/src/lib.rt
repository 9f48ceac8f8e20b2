//! Where two logs part, which pages have to come anew after that, and what the replica does then.
#![tactic(auto)]

mod forks;
pub mod laws;
mod planning;
mod plans;
mod touching;

pub use forks::fork;
pub use planning::plan;
pub use plans::Plan;
pub use touching::touched;
