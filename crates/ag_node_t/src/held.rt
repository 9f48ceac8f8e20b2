//! A primary with 16 pages and its calls, each behind a function without clauses.
ghost use Rattle.std.specs.Prelude.{◌≡◌, length};

use crate::fixture::site;
use ag_model::answer::Answer;
use ag_node::fault::NodeFault;
use ag_node::node::Node;
use ag_outside::mem_disk::MemDisk;
use std::alloc::Global;
use std::marker::Model;

/// A primary that has 16 pages.
#[derive(Drop)]
pub struct Held {
    node: Node<MemDisk>,
}

impl Model for Held {
    ghost use Rattle.std.specs.Prelude.{◌≡◌, length};
    ghost use Rattle.ag_node.specs.Seen.{NodeView};

    ghost Value = { NodeView };

    ghost view = { λ h. h.node };

    ghost invariant = { λ h. length h.node.replica.pages ≡ 16 };
}

impl Held {
    /// This node.
    pub fn new(node: Node<MemDisk>) -> Held
        requires { length node.replica.pages ≡ 16 }
    {
        Held { node }
    }

    /// Whether it is up.
    pub fn is_up(&self) -> bool {
        self.node.is_up()
    }

    /// The cells of the image of a page, where it has such a page.
    pub fn sectors(&mut self, alloc: Global, page: u16) -> Option<Result<Answer, NodeFault>> {
        if page < 16 || page >= 32 {
            return None;
        }
        Some(self.node.sectors(alloc, page))
    }

    /// A page where its stripe stands, where it has such a page.
    pub fn page(&mut self, page: u16) -> Option<Result<Answer, NodeFault>> {
        if page < 16 || page >= 32 {
            return None;
        }
        Some(self.node.page(&site(), page))
    }

    /// Writes the dirty pages.
    pub fn flush(&mut self) -> Option<Result<Answer, NodeFault>> {
        Some(self.node.flush(&site()))
    }

    /// The disk below.
    pub fn into_disk(self) -> MemDisk {
        let Held { node } = self;
        node.into_disk()
    }
}
