// Looking up a path: `DeviceTree::find` and `Node::find`.
ghost use Rattle.std.specs.Prelude.{◌≡◌, ◌<◌, length, IfOk};
ghost use Rattle.format.specs.Results.{outcome, outcome_of};
ghost use Rattle.format.specs.Rows.{at};
ghost use Rattle.format.specs.Lookup.{reach, find_from};
ghost use Rattle.format.specs.Lookup as lookup;
ghost use Rattle.lookup.specs.Answers.{why_of};
ghost use Rattle.lookup.specs.Places.{JudgedLink, child_from, rows_of};

use crate::judge::{Judged, same_part};
use crate::{LookupError, LookupResult, Nodes};
use format::NONE;
use names::name_end;

// A child that was found: its row, and the link to its own first child.
#[derive(Clone, Copy)]
struct Child {
    row: usize,
    below: u32,
}

impl Judged<'_, '_> {
    // The first of the children, whose first is `first`, of that name.
    fn child_named(self, first: u32, name: &[u8]) -> LookupResult<Child>
        requires { JudgedLink (rows_of self.nodes) first }
        ensures row { outcome_of why_of (λ c. c.row) result ≡ child_from self.entry.nodes.blob.now (rows_of self.entry.nodes) self.entry.nodes.count first name.now }
        ensures below { IfOk result (λ c. c.below ≡ (at (rows_of self.entry.nodes) c.row).first_child) }
    {
        let mut link = first;
        while link != NONE {
            let row = link as usize;
            let node = self.node_at(row);
            if !self.row_is_good(link, node) {
                return Err(LookupError::Unusable);
            }
            if same_part(self.nodes.blob, node.name, node.len, name) {
                return Ok(Child {
                    row,
                    below: node.child,
                });
            }
            link = node.next;
        }
        Err(LookupError::NotFound)
    }

    // The path from a row.
    fn walk(self, from: usize, path: &[u8]) -> LookupResult<usize>
        requires { from < self.nodes.count }
        ensures { outcome why_of result ≡ reach self.entry.nodes.blob.now (rows_of self.entry.nodes) from path.now }
    {
        let own = self.node_at(from);
        if !self.links_are_good(from, own) {
            return Err(LookupError::Unusable);
        }
        let mut at = Child {
            row: from,
            below: own.child,
        };
        let mut rest = path;
        while !rest.is_empty() {
            let (name, later) = rest.split_at(name_end(rest));
            at = self.child_named(at.below, name)?;
            let Some((_, below)) = later.split_first() else {
                return Ok(at.row);
            };
            rest = below;
        }
        Ok(at.row)
    }
}

impl Nodes<'_, '_> {
    // The path from a node.
    pub fn find_from(&self, row: usize, path: &[u8]) -> LookupResult<usize>
        ensures { outcome why_of result ≡ find_from self.now.blob.now self.now.table.now self.now.count row path.now }
    {
        self.judged(row)?.walk(row, path)
    }

    // The path in a tree: from row 0, after its leading slash.
    pub fn find(&self, path: &[u8]) -> LookupResult<usize>
        ensures { outcome why_of result ≡ lookup.find self.now.blob.now self.now.table.now self.now.count path.now }
    {
        let judged = self.judged(0)?;
        match path.strip_prefix(b"/") {
            Some(below) => judged.walk(0, below),
            None => Err(LookupError::NotFound),
        }
    }
}
