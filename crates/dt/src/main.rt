// dt: a device tree blob on the command line. Answers go to standard output; what goes wrong is one line on standard error.
#![tactic(auto)]

ghost use Rattle.std.specs.Prelude.{◌≡◌, [], OnOk};
ghost use Rattle.text.specs.Held.{waiting};

mod args;
mod failure;
mod file;
mod find;
mod help;
mod loaded;
mod prop;
mod tree;
mod words;

use args::{Asked, FILE, Task, Word};
use failure::Failure;
use format::{NODE_WIDTH, PROPERTY_WIDTH, RESERVATION_WIDTH};
use show::fields::Tree;
use std::io::Write;
use text::Output;
use words::Refused;

// The most bytes that a file may have, and the rows that there is room for: some 3.5 MiB, all of it on the stack. The function that
// makes an array lends it whole, by its type: no proof has to look at millions of zeros for its length.
const BLOB: usize = 2097152;

const RESERVATIONS: usize = 1024;

const NODES: usize = 16384;

const PROPERTIES: usize = 65536;

const RESERVED: usize = RESERVATIONS * RESERVATION_WIDTH;

const NODE_CELLS: usize = NODES * NODE_WIDTH;

const PROPERTY_CELLS: usize = PROPERTIES * PROPERTY_WIDTH;

// What is asked of a tree, and all of it handed out.
fn answer<W: Write>(
    rt: &HostRuntime,
    task: Task,
    tree: &Tree,
    out: &mut Output<W>,
) -> Result<(), Failure>
    ensures { OnOk result (waiting out.new ≡ []) }
{
    match task {
        Task::Check => {
            let file = Word::at(rt, FILE);
            let loaded = loaded::Loaded(tree.counts);
            writeln!(out, "{file}: good: {loaded}")?;
        }
        Task::Tree => tree::put(out, tree)?,
        Task::Find => find::put(rt, out, tree)?,
        Task::Prop(reading) => prop::put(rt, out, tree, reading)?,
    }
    out.flush()?;
    Ok(())
}

// A tree that was loaded.
fn of_tree(rt: &HostRuntime, task: Task, tree: &Tree) -> Result<(), Failure> {
    let mut out = Output::new(rt.stdout());
    answer(rt, task, tree, &mut out)
}

// A file's bytes, loaded into the room for its rows.
fn of_blob(
    rt: &HostRuntime,
    task: Task,
    b: &[u8],
    reserved: &mut [u64; RESERVED],
    nodes: &mut [u32; NODE_CELLS],
    props: &mut [u32; PROPERTY_CELLS],
) -> Result<(), Failure> {
    let counts = loader::load(b, reserved, nodes, props).map_err(|why| Failure::Refused(Refused::of(
        b, why,
    )))?;
    let tree = Tree {
        b,
        reserved,
        nodes,
        props,
        counts,
    };
    of_tree(rt, task, &tree)
}

// A file's bytes, with room for its rows.
fn with_rows(rt: &HostRuntime, task: Task, b: &[u8]) -> Result<(), Failure> {
    let mut reserved = [0u64; RESERVED];
    let mut nodes = [0u32; NODE_CELLS];
    let mut props = [0u32; PROPERTY_CELLS];
    of_blob(rt, task, b, &mut reserved, &mut nodes, &mut props)
}

// A file, read into the room for it.
fn of_file(rt: &HostRuntime, task: Task, blob: &mut [u8; BLOB]) -> Result<(), Failure> {
    let n = file::read(rt, blob)?;
    with_rows(rt, task, text::upto(blob, n))
}

// A file, with room for it. A frame of its own, so that what needs no file, such as the help, doesn't take the room from the stack.
#[inline(never)]
fn with_file(rt: &HostRuntime, task: Task) -> Result<(), Failure> {
    let mut blob = [0u8; BLOB];
    of_file(rt, task, &mut blob)
}

#[inline(never)]
fn tell_help(rt: &HostRuntime) -> Result<(), Failure> {
    let mut out = Output::new(rt.stdout());
    help::put(&mut out)?;
    Ok(())
}

fn all(rt: &HostRuntime) -> Result<(), Failure> {
    match args::get(rt)? {
        Asked::For(task) => with_file(rt, task),
        Asked::Help => tell_help(rt),
    }
}

fn main(rt: HostRuntime) {
    if let Err(why) = all(&rt) {
        failure::tell(&rt, why);
    }
}
