// Where a line or a field ends.
ghost use Rattle.std.specs.Prelude.{◌≡◌, ◌+◌, ◌≤◌, length, drop};
ghost use Rattle.text.specs.Lines.{index_of, next_line};

pub const LINE_FEED: u8 = b'\n';

pub const COMMA: u8 = b',';

// The place of the first byte b, and the length where there is none.
fn index_of(s: &[u8], b: u8) -> usize
    ensures { result ≡ index_of b s.now }
{
    s.iter().position(|x| *x == b).unwrap_or(s.len())
}

// The same at or behind a place.
pub fn find(s: &[u8], from: usize, b: u8) -> usize
    requires { from ≤ length s.now }
    ensures { result ≡ from + index_of b (drop from s.now) }
{
    from + index_of(&s[from..], b)
}

// The place behind the line that starts at a place.
pub fn next_line(input: &[u8], at: usize) -> usize
    requires { at ≤ length input.now }
    ensures { result ≡ next_line input.now at }
{
    find(input, at, LINE_FEED) + 1
}
