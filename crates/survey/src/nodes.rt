// The checking pass, `Node::load` without what it keeps: it writes nothing, and says what follows and how many rows there are.
ghost use Rattle.std.specs.Prelude.{◌≡◌, ◌<◌, ◌≤◌, ◌+◌, ℕ, length, slice_index};
ghost use Rattle.format.specs.Bytes as bytes;
ghost use Rattle.format.specs.Results.{outcome};
ghost use Rattle.format.specs.Read.{property, properties, node_load};
ghost use Rattle.format.proofs.Turns.{next_of};
ghost use Rattle.survey.specs.Nodes.{block, Small, counted_props, counted, head_of, end_of};
ghost use Rattle.survey.specs.Outcomes.{why_of};

use crate::{ALIGNED, Block, DeviceTreeError, NAME_AT, OFFSET_AT, SIZE_AT, TOKEN, VALUE_AT};
use reader::{Token, aligned, read_be, read_bstring0, subslice};
use utf8::from_utf8;

// What follows properties, and how many there are.
#[derive(Clone, Copy)]
struct Props {
    next: usize,
    props: usize,
}

// A node's head: the length of its name, what follows its properties, and how many there are.
#[derive(Clone, Copy)]
struct Head {
    len: usize,
    next: usize,
    props: usize,
}

// What follows a node, and how many nodes and properties it has, itself and those below it.
#[derive(Clone, Copy)]
pub(crate) struct Passed {
    pub(crate) next: usize,
    pub(crate) nodes: usize,
    pub(crate) props: usize,
}

// A blob whose length the header has checked, and where its properties' names stand.
#[derive(Clone, Copy)]
pub struct Blob<'a> {
    pub bytes: &'a [u8],
    pub strings: Block,
    ghost are_bytes: { (i : ℕ) → slice_index bytes.now i < 256 },
    ghost small: { Small bytes.now strings },
}

impl<'a> Blob<'a> {
    // The property whose token stands at pos.
    fn check_prop(&self, pos: usize) -> Result<usize, DeviceTreeError>
        requires { pos + 4 ≤ length self.now.bytes.now }
        ensures { outcome why_of result ≡ next_of (property self.now.bytes.now (block self.now.strings) pos) }
    {
        let b = self.bytes;
        let size: u32 = read_be(b, pos + SIZE_AT)?;
        let offset: u32 = read_be(b, pos + OFFSET_AT)?;
        let val_start = pos + VALUE_AT;
        let val_end = val_start + size as usize;
        subslice(b, val_start, val_end)?;
        let names = &b[..self.strings.end];
        let start = self.strings.start + offset as usize;
        let name = read_bstring0(names, start)?;
        from_utf8(&names[start..start + name.len])?;
        Ok(aligned(val_end, ALIGNED))
    }

    // The properties from pos on.
    fn check_props(&self, pos: usize) -> Result<Props, DeviceTreeError>
        ensures { outcome why_of result ≡ counted_props (properties self.now.bytes.now (block self.now.strings) (length self.now.bytes.now) pos) }
    {
        let mut p = pos;
        let mut n: usize = 0;
        while let Token::Prop = Token::read(self.bytes, p)? {
            p = self.check_prop(p)?;
            n += 1;
        }
        Ok(Props { next: p, props: n })
    }

    // A node up to its children.
    fn check_head(&self, pos: usize) -> Result<Head, DeviceTreeError>
        ensures { outcome why_of result ≡ head_of self.now.bytes.now (block self.now.strings) pos }
    {
        let Token::BeginNode = Token::read(self.bytes, pos)? else {
            return Err(DeviceTreeError::ParseError(pos));
        };
        let name = read_bstring0(self.bytes, pos + NAME_AT)?;
        let own = self.check_props(aligned(pos + NAME_AT + name.len + 1, ALIGNED))?;
        Ok(Head {
            len: name.len,
            next: own.next,
            props: own.props,
        })
    }

    // A node and what it holds, `depth` levels deep at most.
    pub(crate) fn check_node(&self, depth: usize, pos: usize) -> Result<Passed, DeviceTreeError>
        ensures { outcome why_of result ≡ counted (node_load self.now.bytes.now (block self.now.strings) depth pos) }
    {
        if depth == 0 {
            return Err(DeviceTreeError::TooDeep(pos));
        }
        let head = self.check_head(pos)?;
        let mut p = head.next;
        let mut n: usize = 1;
        let mut k = head.props;
        while let Token::BeginNode = Token::read(self.bytes, p)? {
            let child = self.check_node(depth - 1, p)?;
            p = child.next;
            n += child.nodes;
            k += child.props;
        }
        let next = check_end(self.bytes, pos + NAME_AT, head.len, p)?;
        Ok(Passed {
            next,
            nodes: n,
            props: k,
        })
    }
}

// The end of a node whose children end at pos: its closing token. Its name, len bytes from start on, is judged last.
fn check_end(b: &[u8], start: usize, len: usize, pos: usize) -> Result<usize, DeviceTreeError>
    requires { start + len ≤ length b.now }
    ensures { outcome why_of result ≡ end_of b.now (bytes.part b.now start len) pos }
{
    let Token::EndNode = Token::read(b, pos)? else {
        return Err(DeviceTreeError::ParseError(pos));
    };
    from_utf8(&b[start..start + len])?;
    Ok(pos + TOKEN)
}
