//! Laws of what memory and the disk of a replica have of its pages: that it agrees with the log stays, whatever becomes of them.
#![tactic(auto)]
