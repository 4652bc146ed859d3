// Text put into a buffer, one part behind the other.
ghost use Rattle.std.specs.Prelude.{◌∷◌, [], ◌+◌, ◌≤◌, length};
ghost use Rattle.text.specs.Bytes.{comma};
ghost use Rattle.text.specs.Number.{decimal, printed};
ghost use Rattle.text.specs.Refusal.{refusal};

use crate::line::{COMMA, LINE_FEED};

const MINUS: u8 = b'-';

const ZERO: u8 = b'0';

// A buffer, and the place in it where the next part goes.
#[derive(Drop)]
pub struct Output<'a> {
    pub bytes: &'a mut [u8],
    pub at: usize,
}

impl<'a> Output<'a> {
    ghost use Rattle.text.specs.Outputs.{HasRoom, Puts};

    pub fn byte(&mut self, b: u8)
        requires { HasRoom 1 self.old }
        ensures { Puts (b ∷ []) self.old self.new }
    {
        self.bytes[self.at] = b;
        self.at += 1;
    }

    pub fn text(&mut self, text: &[u8])
        requires { HasRoom (length text.now) self.old }
        ensures { Puts text.now self.old self.new }
    {
        let end = self.at + text.len();
        self.bytes[self.at..end].copy_from_slice(text);
        self.at = end;
    }

    // The decimal digits of n.
    pub fn digits(&mut self, n: u64)
        requires { HasRoom (length (decimal n)) self.old }
        ensures { Puts (decimal n) self.old self.new }
    {
        if n >= 10 {
            self.digits(n / 10);
        }
        self.byte(ZERO + (n % 10) as u8);
    }

    // A number, with a minus in front where it is below 0.
    pub fn number(&mut self, v: i64)
        requires { HasRoom (length (printed v)) self.old }
        ensures { Puts (printed v) self.old self.new }
    {
        if v < 0 {
            self.byte(MINUS);
        }
        self.digits(arithmetic::size(v));
    }

    // A further field: a comma and a number, of 20 digits at most.
    pub fn more(&mut self, n: u64)
        requires { HasRoom 21 self.old }
        ensures puts { Puts (comma ∷ decimal n) self.old self.new }
        ensures upper_bound { self.new.at ≤ self.old.at + 21 }
    {
        self.byte(COMMA);
        self.digits(n);
    }

    // The line of a refusal.
    pub fn refusal(&mut self, code: u32, line: usize)
        requires { HasRoom 50 self.old }
        ensures puts { Puts (refusal code line) self.old self.new }
        ensures upper_bound { self.new.at ≤ self.old.at + 50 }
    {
        self.text(b"refused");
        self.more(code as u64);
        self.more(line as u64);
        self.byte(LINE_FEED);
    }
}
