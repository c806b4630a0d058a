// Looking up a property: `prop_raw`, and what stands on it.
ghost use Rattle.std.specs.Prelude.{◌≡◌, ℕ, List, length};
ghost use Rattle.format.specs.Answer.{or_empty};
ghost use Rattle.format.specs.Results.{outcome, outcome_of};
ghost use Rattle.format.specs.Rows.{PropertyRow};
ghost use Rattle.format.specs.Lookup.{among, prop_raw, has_prop};
ghost use Rattle.format.specs.Agrees.{bytes_in};
ghost use Rattle.reader.specs.Outcomes.{tells};
ghost use Rattle.lookup.specs.Answers.{lent_by, why_of};
ghost use Rattle.lookup.specs.Places.{RowsFrom};

use crate::judge::{lies_in, same_part};
use crate::{LookupError, LookupResult, Rows};
use format::PROPERTY_WIDTH;
use reader::Span;

// The first property of that name among some rows.
fn first_named(blob: &[u8], rows: &[[u32; PROPERTY_WIDTH]], name: &[u8]) -> LookupResult<Span>
    ensures { (P : List PropertyRow) (first : ℕ) → RowsFrom P first rows.now → outcome_of why_of tells result ≡ among blob.now P (length rows.now) first name.now }
{
    for row in rows {
        let [at, len, start, size] = *row;
        if !lies_in(at, len, blob.len()) || !lies_in(start, size, blob.len()) {
            return Err(LookupError::Unusable);
        }
        if same_part(blob, at, len, name) {
            return Ok(Span {
                start: start as usize,
                len: size as usize,
            });
        }
    }
    Err(LookupError::NotFound)
}

impl<'b> Rows<'b, '_> {
    // Where the value lies.
    #[inline(always)]
    pub fn prop_raw(&self, row: usize, name: &[u8]) -> LookupResult<Span>
        ensures { outcome_of why_of tells result ≡ prop_raw self.now.nodes.blob.now (lent_by self.now) row name.now }
    {
        let nodes = self.nodes.judged(row)?;
        let (props, _) = self.props.as_chunks::<PROPERTY_WIDTH>();
        if props.len() < self.many {
            return Err(LookupError::Unusable);
        }
        let node = nodes.node_at(row);
        if !lies_in(node.first, node.count, self.many) {
            return Err(LookupError::Unusable);
        }
        let first = node.first as usize;
        let own = &props[first..first + node.count as usize];
        first_named(self.nodes.blob, own, name)
    }

    // Whether there is such a property.
    #[tactic(auto, using(crate::proofs::PropertyLaws::has_it, format::proofs::Answer::then_refused), unfolding(format::specs::Lookup::has_prop, format::specs::Results::outcome_of, crate::specs::Answers::why_of))]
    pub fn has_prop(&self, row: usize, name: &[u8]) -> LookupResult<()>
        ensures { outcome why_of result ≡ has_prop self.now.nodes.blob.now (lent_by self.now) row name.now }
    {
        self.prop_raw(row, name)?;
        Ok(())
    }

    // The value itself, empty on a refusal. A function for this and for `prop_str_part` would be no shorter.
    pub fn prop_raw_part(&self, row: usize, name: &[u8]) -> &'b [u8]
        ensures { result.now ≡ or_empty (bytes_in self.now.nodes.blob.now (prop_raw self.now.nodes.blob.now (lent_by self.now) row name.now)) }
    {
        match self.prop_raw(row, name) {
            Ok(Span { start, len }) => &self.nodes.blob[start..start + len],
            Err(_) => &[],
        }
    }
}
