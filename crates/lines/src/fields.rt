// The fields of a line, each up to a space or the line's end.
ghost use Rattle.std.specs.Prelude.{◌≡◌, ◌==◌, position};
ghost use Rattle.lines.specs.Fields.{Ends, first_of, rest_of, letter_of};

// Where a byte first stands in s.
pub(crate) fn find(s: &[u8], byte: u8) -> Option<usize>
    ensures { result ≡ position (λ b. b == byte) s.now }
{
    s.iter().position(|b| *b == byte)
}

// Where the first field of s ends: at its first space, or where s ends.
fn end(s: &[u8]) -> usize
    ensures { Ends s.now result }
{
    find(s, b' ').unwrap_or(s.len())
}

// The first field of s.
pub fn first(s: &[u8]) -> &[u8]
    ensures { result.now ≡ first_of s.now }
{
    &s[..end(s)]
}

// What follows the first field of s and its space, empty where nothing does. No field is empty, so a missing one is bad.
pub fn rest(s: &[u8]) -> &[u8]
    ensures { result.now ≡ rest_of s.now }
{
    let end = end(s);
    if end == s.len() {
        return &[];
    }
    &s[end + 1..]
}

// What follows the first two fields of s.
pub fn after_two(s: &[u8]) -> &[u8]
    ensures { result.now ≡ rest_of (rest_of s.now) }
{
    rest(rest(s))
}

// The letter of a line, its first field; a space, which is no letter, where that is not one byte: so `letter_of` of specs/Fields says.
#[tactic(auto, unfolding(crate::specs::Fields::letter_of))]
pub fn letter(s: &[u8]) -> u8
    ensures { result ≡ letter_of s.now }
{
    match first(s) {
        [letter] => *letter,
        _ => b' ',
    }
}
