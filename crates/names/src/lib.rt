// Names: whether two are the same, and where the first name of a path ends.
#![tactic(auto)]

ghost use Rattle.std.specs.Prelude.{◌≡◌, ℕ, false, ◌+◌, ◌≤◌, ◌<◌, ◌≢◌, length, slice_index};
ghost use Rattle.format.specs.Find.{head, same};
ghost use Rattle.names.specs.Words.{lowest, Scan};

// How many bytes are compared at once.
const WORD: usize = 4;

// The word of s at p, its first byte the lowest: most machines read it so at once.
fn word_of(s: &[u8], p: usize) -> u32
    requires { p + 4 ≤ length s.now }
    ensures { result ≡ lowest s.now p }
{
    u32::from_le_bytes([s[p], s[p + 1], s[p + 2], s[p + 3]])
}

// Whether two texts of one length, a word or more, are the same. It goes from the end, where names differ most; the first word has what is left.
// By words: the slices' own == begins at the front, where siblings are alike, and misses find's bar, 1.51 of the original for 1.20.
fn same_bytes(s: &[u8], t: &[u8]) -> bool
    requires { (4 ≤ length s.now) × (length s.now ≡ length t.now) }
    ensures { result ≡ same s.now t.now }
{
    let mut i = s.len() - WORD;
    loop {
        if word_of(s, i) != word_of(t, i) {
            return false;
        }
        if i < WORD {
            return word_of(s, 0) == word_of(t, 0);
        }
        i -= WORD;
    }
}

// Whether two names are the same.
pub fn same(s: &[u8], t: &[u8]) -> bool
    ensures { result ≡ same s.now t.now }
{
    if s.len() != t.len() {
        return false;
    }
    if s.len() < WORD {
        return s == t;
    }
    same_bytes(s, t)
}

// Whether one of a word's bytes is a slash. All are compared, whatever the first ones are: so it is one comparison for the machine.
fn has_slash(word: [u8; WORD]) -> bool
    ensures { result ≡ false → (i : ℕ) → i < 4 → slice_index word i ≢ 0x2f }
{
    let [a, b, c, d] = word;
    (a == b'/') | (b == b'/') | (c == b'/') | (d == b'/')
}

// How far the path has words without a slash.
fn plain_words(path: &[u8]) -> usize
    ensures { Scan path.now result }
{
    let (words, _) = path.as_chunks::<WORD>();
    for (i, word) in words.iter().enumerate() {
        if has_slash(*word) {
            return i * WORD;
        }
    }
    words.len() * WORD
}

// The end of the path's first name, a byte at a time.
fn byte_end(path: &[u8]) -> usize
    ensures { result ≡ length (head path.now) }
{
    path.iter().position(|b| *b == b'/').unwrap_or(path.len())
}

// The end of the path's first name: the first slash, or the path's end. By words first, for a byte at a time a long name takes twice as long.
pub fn name_end(path: &[u8]) -> usize
    ensures { result ≡ length (head path.now) }
{
    let plain = plain_words(path);
    plain + byte_end(&path[plain..])
}
