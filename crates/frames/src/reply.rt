// What a line is answered: the numbers of a load of the frame that it spells.
ghost use Rattle.std.specs.Prelude.{◌≡◌};
ghost use Rattle.answers.specs.Answers.{answer_numbers};
ghost use Rattle.frames.specs.Frames.{load_reply, frame_reply};

use answers::Answer;

// The numbers of the tables.
const RESERVED: usize = lines::RESERVATION_ROWS * format::RESERVATION_WIDTH;

const NODES: usize = lines::NODE_ROWS * format::NODE_WIDTH;

const PROPS: usize = lines::PROPERTY_ROWS * format::PROPERTY_WIDTH;

// A load of a frame into tables of our own.
#[tactic(auto, using(answers::proofs::Parts::told_load), unfolding(crate::specs::Frames::load_reply, crate::specs::Frames::tables, loader::specs::Numbers::lent))]
fn load(b: &[u8]) -> Answer
    ensures { answer_numbers result ≡ load_reply b.now }
{
    let mut reserved = [0u64; RESERVED];
    let mut nodes = [0u32; NODES];
    let mut props = [0u32; PROPS];
    Answer::from(loader::load(b, &mut reserved, &mut nodes, &mut props))
}

// A line's answer; 16 for a bad line.
#[tactic(auto, unfolding(crate::specs::Frames::frame_reply, answers::specs::Answers::answer_numbers))]
pub fn reply(line: &[u8]) -> Answer
    ensures { answer_numbers result ≡ frame_reply line.now }
{
    let mut frame = [0u8; lines::BYTES];
    let Some(len) = lines::hex(line, &mut frame) else {
        return Answer::alone(lines::BAD);
    };
    load(text::upto(&frame, len))
}
