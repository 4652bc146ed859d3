// A line that the program step-table prints, put behind what is there.
ghost use Rattle.std.specs.Prelude.{◌+◌, ◌≤◌, length};
ghost use Rattle.text.specs.Outputs.{HasRoom, Puts};
ghost use Rattle.table_report.specs.Report.{saying};

use text::line::LINE_FEED;
use text::output::Output;

// A line of a word and a number.
pub fn put_saying(word: &[u8], n: u32, output: &mut Output)
    requires { HasRoom (length word.now + 22) output.old }
    ensures puts { Puts (saying word.now n) output.old output.new }
    ensures upper_bound { output.new.at ≤ output.old.at + (length word.now + 22) }
{
    output.text(word);
    output.more(n as u64);
    output.byte(LINE_FEED);
}
