// `DeviceTree::load`: survey everything, judge the room, and only then write.
ghost use Rattle.std.specs.Prelude.{◌≡◌, nat_le};
ghost use Rattle.format.specs.Answer.{check};
ghost use Rattle.format.specs.Load.{Loads, Measures};
ghost use Rattle.format.specs.Results.{outcome};
ghost use Rattle.survey.specs.Outcomes.{why_of};
ghost use Rattle.loader.specs.Numbers.{loaded_numbers, lent};

use crate::reserve::store;
use crate::table::Table;
use crate::write::write_node;
use format::{DEPTH, NODE_WIDTH, NONE, PROPERTY_WIDTH, RESERVATION_WIDTH};
use survey::{Blob, DeviceTree, DeviceTreeError, survey};

// What `load` answers with unlimited room. It writes nothing.
#[tactic(auto, using(crate::proofs::LoadLaws::measured, crate::proofs::LoadLaws::not_measured), unfolding(format::specs::Results::outcome_of))]
pub fn measure(b: &[u8]) -> Result<DeviceTree, DeviceTreeError>
    ensures { Measures b.now (loaded_numbers result) }
{
    let found = survey(b)?;
    Ok(found.tree)
}

// Whether a table has room for so many rows, or why not.
fn room(capacity: usize, rows: usize, why: DeviceTreeError) -> Result<(), DeviceTreeError>
    ensures { outcome why_of result ≡ check (nat_le rows capacity) (why_of why) }
{
    if capacity < rows {
        return Err(why);
    }
    Ok(())
}

// A blob into the three tables: 0 to 10. A refusal writes nothing.
pub fn load(
    b: &[u8],
    reserved: &mut [u64],
    nodes: &mut [u32],
    props: &mut [u32],
) -> Result<DeviceTree, DeviceTreeError>
    ensures { Loads (lent reserved.old nodes.old props.old) b.now (loaded_numbers result)
        (lent reserved.new nodes.new props.new) }
{
    let plan = survey(b)?;
    let tree = plan.tree;
    room(
        reserved.len() / RESERVATION_WIDTH,
        tree.reserved,
        DeviceTreeError::ReservationRoom(tree.reserved),
    )?;
    room(
        nodes.len() / NODE_WIDTH,
        tree.nodes,
        DeviceTreeError::NodeRoom(tree.nodes),
    )?;
    room(
        props.len() / PROPERTY_WIDTH,
        tree.props,
        DeviceTreeError::PropertyRoom(tree.props),
    )?;
    let mut reserved: Table<u64, RESERVATION_WIDTH> = Table::new(reserved);
    let mut nodes: Table<u32, NODE_WIDTH> = Table::new(nodes);
    let mut props: Table<u32, PROPERTY_WIDTH> = Table::new(props);
    store(b, plan.reservations, &mut reserved);
    let blob = Blob {
        bytes: b,
        strings: plan.strings,
    };
    write_node(&blob, DEPTH, plan.structure, NONE, &mut nodes, &mut props);
    Ok(tree)
}
