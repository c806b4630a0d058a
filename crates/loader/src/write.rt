// The writing pass, over a blob that the checking pass accepted.
ghost use Rattle.std.specs.Prelude.{◌≡◌, ◌≢◌, ◌≤◌, ◌+◌, ◌*◌, List, length, set};
ghost use Rattle.std.proofs.lemmas.List.Edits.{sets};
ghost use Rattle.format.specs.Bytes.{word_at};
ghost use Rattle.format.specs.Bytes as bytes;
ghost use Rattle.format.specs.Format.{node_width, property_width};
ghost use Rattle.format.specs.Format as format;
ghost use Rattle.format.specs.Tree.{Property, Node};
ghost use Rattle.reader.specs.declared.Token.TheVariants.{BeginNode};
ghost use Rattle.survey.specs.Nodes.{block};
ghost use Rattle.loader.specs.Pass.{PropReady, prop_numbers, PropsHere, PropsReady, props_state, props_after};
ghost use Rattle.loader.specs.Pass.{HeadReady, first_at, child_row, HeadDone, NodeHere, NodeReady, passed, node_after};

use crate::table::Table;
use format::{NODE_WIDTH, NONE, PROPERTY_WIDTH};
use reader::{Token, aligned, number_at, string_len};
use survey::{ALIGNED, Blob, NAME_AT, OFFSET_AT, SIZE_AT, TOKEN, VALUE_AT};

// Where a node's row has its next sibling.
const SIBLING: usize = 4;

// The next sibling of the node of a row, where the token after that node opens one.
#[tactic(auto, unfolding(format::specs::Format::node_width))]
fn link(table: &mut [u32], row: usize, token: Token, next: u32)
    requires { node_width * (row + 1) ≤ length table.old }
    ensures some { token ≡ BeginNode → table.new ≡ set table.old (node_width * row + 4) next }
    ensures none { token ≢ BeginNode → table.new ≡ table.old }
{
    if let Token::BeginNode = token {
        table[NODE_WIDTH * row + SIBLING] = next;
    }
}

// The row of a first child, where the token there opens one, and else `NONE`: a row is numbers alone, and tells C so.
#[tactic(auto, using(crate::proofs::TokenLaws::no_child), unfolding(crate::specs::Pass::child_row, format::specs::Format::NONE))]
fn child_row(token: Token, row: u32) -> u32
    ensures { result ≡ child_row token row }
{
    match token {
        Token::BeginNode => row,
        _ => NONE,
    }
}

// The row of the property at pos. Returns what follows it.
#[tactic(auto, unfolding(format::specs::Format::property_width))]
fn write_prop(blob: &Blob, pos: usize, props: &mut Table<u32, PROPERTY_WIDTH>) -> usize
    requires { PropReady blob.now.bytes.now (block blob.now.strings) pos props.old.row props.old.numbers.now }
    ensures next { result ≡ bytes.align (pos + 12 + word_at blob.now.bytes.now (pos + 4)) 4 }
    ensures stored { props.new.numbers.now ≡ sets props.old.numbers.now (property_width * props.old.row) (prop_numbers blob.now.bytes.now (block blob.now.strings) pos) }
    ensures row { props.new.row ≡ props.old.row + 1 }
    ensures lent { props.new.numbers.ghost_name ≡ props.old.numbers.ghost_name }
{
    let b = blob.bytes;
    let size: u32 = number_at(b, pos + SIZE_AT);
    let offset: u32 = number_at(b, pos + OFFSET_AT);
    let name = blob.strings.start + offset as usize;
    let len = string_len(&b[..blob.strings.end], name);
    let value = pos + VALUE_AT;
    props.push([name as u32, len as u32, value as u32, size]);
    aligned(value + size as usize, ALIGNED)
}

// The rows of the properties from pos on. Returns what follows them.
fn write_props(blob: &Blob, pos: usize, props: &mut Table<u32, PROPERTY_WIDTH>) -> usize
    requires { PropsReady blob.now.bytes.now (block blob.now.strings) pos props.old.row props.old.numbers.now }
    ensures stored { (xs : List Property) → PropsHere blob.now.bytes.now (block blob.now.strings) pos xs
        → props_state result props.new.row props.new.numbers.now
        ≡ props_after blob.now.bytes.now (block blob.now.strings) xs pos props.old.row props.old.numbers.now }
    ensures lent { props.new.numbers.ghost_name ≡ props.old.numbers.ghost_name }
{
    let mut p = pos;
    while let Token::Prop = Token::at(blob.bytes, p) {
        p = write_prop(blob, p, props);
    }
    p
}

// A node's own row and those of its properties. Returns what follows these.
#[tactic(auto, unfolding(crate::specs::Pass::string_length, format::specs::Format::node_width))]
fn write_head(
    blob: &Blob,
    pos: usize,
    parent: u32,
    nodes: &mut Table<u32, NODE_WIDTH>,
    props: &mut Table<u32, PROPERTY_WIDTH>,
) -> usize
    requires { HeadReady blob.now.bytes.now (block blob.now.strings) pos nodes.old.row props.old.row nodes.old.numbers.now props.old.numbers.now }
    ensures stored { (xs : List Property) → PropsHere blob.now.bytes.now (block blob.now.strings) (first_at blob.now.bytes.now pos) xs
        → HeadDone blob.now.bytes.now (block blob.now.strings) xs pos nodes.old.row props.old.row parent nodes.old.numbers.now props.old.numbers.now
        result nodes.new.row props.new.row nodes.new.numbers.now props.new.numbers.now }
    ensures lent_nodes { nodes.new.numbers.ghost_name ≡ nodes.old.numbers.ghost_name }
    ensures lent_props { props.new.numbers.ghost_name ≡ props.old.numbers.ghost_name }
{
    let name = pos + NAME_AT;
    let len = string_len(blob.bytes, name);
    let first = props.row;
    let next = write_props(blob, aligned(name + len + 1, ALIGNED), props);
    let child = child_row(Token::at(blob.bytes, next), (nodes.row + 1) as u32);
    let count = props.row - first;
    nodes.push([
        name as u32,
        len as u32,
        parent,
        child,
        NONE,
        first as u32,
        count as u32,
    ]);
    next
}

// The rows of the node at pos and of what it holds; its own says that it has no next sibling. Returns what follows the node.
pub(crate) fn write_node(
    blob: &Blob,
    depth: usize,
    pos: usize,
    parent: u32,
    nodes: &mut Table<u32, NODE_WIDTH>,
    props: &mut Table<u32, PROPERTY_WIDTH>,
) -> usize
    requires { NodeReady blob.now.bytes.now (block blob.now.strings) depth pos nodes.old.row props.old.row nodes.old.numbers.now props.old.numbers.now }
    ensures stored { (n : Node) → NodeHere blob.now.bytes.now (block blob.now.strings) pos n
        → passed result nodes.new.row props.new.row nodes.new.numbers.now props.new.numbers.now
        ≡ node_after blob.now.bytes.now (block blob.now.strings) n pos nodes.old.row props.old.row parent format.NONE nodes.old.numbers.now props.old.numbers.now }
    ensures lent_nodes { nodes.new.numbers.ghost_name ≡ nodes.old.numbers.ghost_name }
    ensures lent_props { props.new.numbers.ghost_name ≡ props.old.numbers.ghost_name }
{
    let row = nodes.row;
    let mut p = write_head(blob, pos, parent, nodes, props);
    let mut token = Token::at(blob.bytes, p);
    while let Token::BeginNode = token {
        let last = nodes.row;
        p = write_node(blob, depth - 1, p, row as u32, nodes, props);
        token = Token::at(blob.bytes, p);
        link(nodes.numbers, last, token, nodes.row as u32);
    }
    p + TOKEN
}
