// Lines as they are read.
ghost use Rattle.std.specs.Prelude.{◌≡◌, ◌≤◌, length};
ghost use Rattle.lines.specs.Lines.{end_length, without_end};

// A line without its end: a line feed, or a carriage return and a line feed.
pub fn line_content(line: &[u8]) -> &[u8]
    ensures { result.now ≡ without_end line.now }
{
    &line[0..line.len() - end_length(line)]
}

fn end_length(line: &[u8]) -> usize
    ensures value { result ≡ end_length line.now }
    ensures within { result ≤ length line.now }
{
    let n = line.len();
    if n == 0 || line[n - 1] != b'\n' {
        0
    } else if n >= 2 && line[n - 2] == b'\r' {
        2
    } else {
        1
    }
}
