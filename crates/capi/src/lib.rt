// What C and Rust link: load, measure, the lookups and the readers on plain slices. A call's answer goes to `answer` as document 01's
// numbers, from its start, as many as it has room for (6 are enough); what follows them stays as it was.
#![tactic(auto)]

ghost use Rattle.loader.specs.Numbers.{lent};
ghost use Rattle.capi.specs.Linked.{Linked, Measured};

mod lookups;
mod readers;

// `loader::load`: 0 to 10.
#[unsafe(no_mangle)]
pub extern "C" fn dangrisuk_load(
    blob: &[u8],
    reserved: &mut [u64],
    nodes: &mut [u32],
    props: &mut [u32],
    answer: &mut [u64],
)
    ensures { Linked (lent reserved.old nodes.old props.old) blob.now answer.old
        (lent reserved.new nodes.new props.new) answer.new }
{
    answers::tell(answer, loader::load(blob, reserved, nodes, props));
}

// `loader::measure`: 0 to 7.
#[unsafe(no_mangle)]
pub extern "C" fn dangrisuk_measure(blob: &[u8], answer: &mut [u64])
    ensures { Measured blob.now answer.old answer.new }
{
    answers::tell(answer, loader::measure(blob));
}
