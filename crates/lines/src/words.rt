// A cursor over the words of a line.
ghost use Rattle.std.specs.Prelude.{◌≡◌, not, ◌==◌, position, drop};
ghost use Rattle.std.specs.List.{position_or_len, before_first};
ghost use Rattle.std.specs.Iterator.{item_count};
ghost use Rattle.lines.specs.Lines.{blank, uncommented, words, left, GivesWord};

// What begins a comment.
const COMMENT: u8 = b'#';

// It means the words that are left.
#[derive(Clone, Copy)]
pub struct Words<'a> {
    rest: &'a [u8],
}

impl<'a> Words<'a> {
    // At the first word of the line, which ends where a comment begins.
    pub fn new(line: &'a [u8]) -> Words<'a>
        ensures { left result ≡ words (uncommented line.now) }
    {
        let end = first_comment(line).unwrap_or(line.len());
        Words { rest: &line[..end] }
    }
}

// It gives the words in order.
impl<'a> Iterator for Words<'a> {
    type Item = &'a [u8];

    ghost next_gives = { GivesWord };

    ghost remaining = { item_count left };

    fn next(&mut self) -> Option<&'a [u8]> {
        let start = first_of_word(self.rest)?;
        let (word, after) = split_word(&self.rest[start..]);
        self.rest = after;
        Some(word)
    }
}

fn first_comment(line: &[u8]) -> Option<usize>
    ensures { result ≡ position (λ b. b == 35) line.now }
{
    line.iter().position(|b| *b == COMMENT)
}

// The bytes before the first blank, and the others.
fn split_word(bytes: &[u8]) -> (&[u8], &[u8])
    ensures word { result.0.now ≡ before_first blank bytes.now }
    ensures others { result.1.now ≡ drop (position_or_len blank bytes.now) bytes.now }
{
    bytes.split_at(first_blank(bytes).unwrap_or(bytes.len()))
}

fn first_blank(bytes: &[u8]) -> Option<usize>
    ensures { result ≡ position blank bytes.now }
{
    bytes.iter().position(|b| is_blank(*b))
}

fn first_of_word(bytes: &[u8]) -> Option<usize>
    ensures { result ≡ position (λ b. not (blank b)) bytes.now }
{
    bytes.iter().position(|b| !is_blank(*b))
}

fn is_blank(byte: u8) -> bool
    ensures { result ≡ blank byte }
{
    byte == b' ' || byte == b'\t'
}
