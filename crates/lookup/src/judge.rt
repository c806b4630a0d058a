// Rows of the tables, and the judgements of a row that is reached.
ghost use Rattle.std.specs.Prelude.{◌≡◌, ◌+◌, ◌*◌, ◌<◌, ◌≤◌, ◌&&◌, ◌≢◌, true, false, length, nat_le, IfOk, IfErr};
ghost use Rattle.format.specs.Bytes.{part};
ghost use Rattle.format.specs.Find.{same};
ghost use Rattle.format.specs.Format.{NONE as none, node_width};
ghost use Rattle.format.specs.Rows.{at};
ghost use Rattle.format.specs.Lookup.{link_good, links_good, name_inside, usable};
ghost use Rattle.lookup.specs.Places.{IsNode, rows_of};
ghost use Rattle.lookup.specs.declared.LookupError.TheVariants.{Unusable};

use crate::{LookupError, LookupResult, Nodes};
use format::{NODE_WIDTH, NONE};

// The numbers of a node row that a lookup reads.
#[derive(Clone, Copy)]
pub(crate) struct NodeCells {
    pub(crate) name: u32,
    pub(crate) len: u32,
    pub(crate) child: u32,
    pub(crate) next: u32,
    pub(crate) first: u32,
    pub(crate) count: u32,
}

// Nodes of which the table has as many as are counted.
#[derive(Clone, Copy)]
pub(crate) struct Judged<'b, 't> {
    pub(crate) nodes: Nodes<'b, 't>,
    ghost room: { node_width * nodes.count ≤ length nodes.table.now },
}

impl<'b, 't> Nodes<'b, 't> {
    // The same, judged. Refused where fewer are there than are counted, or `row` is none of them.
    #[tactic(auto, unfolding(format::specs::Lookup::usable, format::specs::Load::capacity, format::specs::Format::node_width))]
    pub(crate) fn judged(&self, row: usize) -> LookupResult<Judged<'b, 't>>
        ensures ok { IfOk result (λ judged. (usable self.now.table.now self.now.count row ≡ true) × (judged.nodes ≡ self.now)) }
        ensures err { IfErr result (λ e. (usable self.now.table.now self.now.count row ≡ false) × (e ≡ Unusable)) }
    {
        if self.table.len() / NODE_WIDTH < self.count || self.count <= row {
            return Err(LookupError::Unusable);
        }
        Ok(Judged { nodes: *self })
    }
}

// A row's width, but for the one or the two times that the row's number is added apart.
const BUT_ONE: usize = NODE_WIDTH - 1;

const BUT_TWO: usize = NODE_WIDTH - 2;

impl Judged<'_, '_> {
    // A row's place is seven times its number. The next link's is two sums that the processor makes side by side, as a search waits for
    // it at every row; the others' follow each other. As an array of its own a row's place is a product by 28: measured, 2,000 siblings
    // took an eighth longer.
    #[tactic(auto, unfolding(format::specs::Format::node_width))]
    pub(crate) fn node_at(self, row: usize) -> NodeCells
        requires { row < self.nodes.count }
        ensures { IsNode result (at (rows_of self.entry.nodes) row) }
    {
        let link = &self.nodes.table[2 * row..];
        let part = &self.nodes.table[BUT_ONE * row..];
        NodeCells {
            name: part[row],
            len: part[row + 1],
            child: part[row + 3],
            next: link[BUT_TWO * row + 4],
            first: part[row + 5],
            count: part[row + 6],
        }
    }

    // Whether a link of the row is none, or a later row below the count.
    #[tactic(auto, unfolding(format::specs::Lookup::link_good, format::specs::Format::NONE))]
    fn link_is_good(self, row: usize, link: u32) -> bool
        ensures { result ≡ link_good (rows_of self.entry.nodes) row link }
    {
        link == NONE || (row < link as usize && (link as usize) < self.nodes.count)
    }

    // The same of a row that a link led to. One more than none is 0, so both tests go the same way for every good link, and the
    // processor need not guess whether there is one.
    fn leads_on(self, row: u32, link: u32) -> bool
        requires { row ≢ none }
        ensures { result ≡ link_good (rows_of self.entry.nodes) row link }
    {
        row < link && link.wrapping_add(1) as usize <= self.nodes.count
    }

    // Whether both links of the row are good.
    #[tactic(auto, unfolding(format::specs::Lookup::links_good))]
    pub(crate) fn links_are_good(self, row: usize, node: NodeCells) -> bool
        requires { IsNode node (at (rows_of self.nodes) row) }
        ensures { result ≡ links_good (rows_of self.entry.nodes) row }
    {
        self.link_is_good(row, node.child) && self.link_is_good(row, node.next)
    }

    // Whether both links are good and the name lies in the blob. The next row's number is read first: what follows waits for it.
    pub(crate) fn row_is_good(self, row: u32, node: NodeCells) -> bool
        requires some { row ≢ none }
        requires read { IsNode node (at (rows_of self.nodes) row) }
        ensures { result ≡ (links_good (rows_of self.entry.nodes) row && name_inside self.entry.nodes.blob.now (rows_of self.entry.nodes) row) }
    {
        self.leads_on(row, node.next)
            && self.leads_on(row, node.child)
            && lies_in(node.name, node.len, self.nodes.blob.len())
    }
}

// Whether the part lies in a whole of that length.
pub(crate) fn lies_in(start: u32, len: u32, whole: usize) -> bool
    ensures { result ≡ nat_le (start + len) whole }
{
    start as usize + len as usize <= whole
}

// Whether that part of s is t.
pub(crate) fn same_part(s: &[u8], start: u32, len: u32, t: &[u8]) -> bool
    requires { start + len ≤ length s.now }
    ensures { result ≡ same (part s.now start len) t.now }
{
    let from = start as usize;
    names::same(&s[from..from + len as usize], t)
}
