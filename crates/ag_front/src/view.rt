//! What a pass knows.
use ag_model::record::Log;

/// The view of a pass. No value of it is made, so an array here is a list of any length.
pub struct View {
    /// The longest log that the pass knows.
    pub seen: Log,
    /// The published LSNs that it knows.
    pub floor: [u64; 16],
    /// The applied LSNs that it knows.
    pub done: [u64; 16],
    /// The turn words that it knows.
    pub turn: [u64; 17],
    /// How often it took each slot.
    pub takes: [u64; 17],
    /// How often it made a compare and exchange on each turn word.
    pub tries: [u64; 17],
    /// How often it loaded each published word.
    pub loads: [u64; 16],
    /// The two logs that its last join merged, or two empty ones.
    pub olds: (Log, Log),
    /// Whether it may make the log longer.
    pub author: bool,
    pub parts: u64,
    /// The front's number of data pages, which a `Play` can't read from the key.
    pub pages: u16,
    /// 0, or 1 more than the slot that the pass holds.
    pub hand: u64,
    /// The applied LSN, or the log's end, at the taking of that slot.
    pub at: u64,
}
