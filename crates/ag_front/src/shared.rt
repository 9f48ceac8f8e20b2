//! A front.
ghost use Rattle.std.specs.Prelude.{◌≡◌};

use crate::rule::FrontTable;
use ag_model::stands::Stands;
use std::alloc::Global;

/// The shared table of published LSNs, stripes and the log. Threads share it by reference.
#[derive(Drop)]
pub struct Front<T: Stands> {
    pub table: FrontTable<T>,
    pub(crate) alloc: Global,
    pub ghost sized: { (table.shared.table_id.words ≡ 33) × (table.shared.table_id.slots ≡ 17) },
}
