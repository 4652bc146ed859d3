// The program step-table on bytes: `report` takes any bytes, and what it writes is the definition of specs/Report.
#![tactic(auto)]

mod print;

ghost use Rattle.std.specs.Prelude.{◌≡◌, ◌+◌, ◌/◌, ◌≤◌, T, IfSome, length};
ghost use Rattle.std.specs.Option.{unwrap_or};
ghost use Rattle.cosine.specs.Kernels.{tabled};
ghost use Rattle.text.specs.Buffers.{Written};
ghost use Rattle.text.specs.Outputs.{HasRoom, Puts};
ghost use Rattle.steps.specs.Table.{table_code};
ghost use Rattle.table_report.specs.Report.{length_of, distance_line, offered_line, taken_lines, report_of};

use analysis::Route;
use print::put_saying;
use text::number::{DIGITS, parse};
use text::output::Output;

// Room for whatever is printed.
pub const ROOM: usize = 128;

// The length that the bytes say, where they say one.
fn length_of(number: &[u8]) -> Option<usize>
    ensures length { unwrap_or result 0 ≡ length_of number.now }
    ensures tabled { IfSome result (λ n. T (tabled n)) }
{
    let n = parse(number, DIGITS)?;
    if n < 0 || !cosine::is_tabled(n as usize) {
        return None;
    }
    Some(n as usize)
}

// The line of the distance that a route is told.
fn put_distance(word: &[u8], route: Route, n: usize, table: &[u8], output: &mut Output)
    requires { HasRoom (length word.now + 22) output.old }
    ensures puts { Puts (distance_line word.now route n table.now) output.old output.new }
    ensures upper_bound { output.new.at ≤ output.old.at + (length word.now + 22) }
{
    let told = level_calls::told_distance(route, n, table).unwrap_or(0);
    put_saying(word, told, output);
}

// The same, where the route is offered.
fn put_offered(word: &[u8], route: Route, n: usize, table: &[u8], output: &mut Output)
    requires { HasRoom (length word.now + 22) output.old }
    ensures puts { Puts (offered_line word.now route n table.now) output.old output.new }
    ensures upper_bound { output.new.at ≤ output.old.at + (length word.now + 22) }
{
    if !checks::is_offered(route, n) {
        return;
    }
    put_distance(word, route, n, table, output);
}

// The lines of a table that is taken.
fn put_taken(n: usize, table: &[u8], output: &mut Output)
    requires tabled { T (tabled n) × (table_code (n / 2) table.now ≡ 0) }
    requires room { HasRoom 110 output.old }
    ensures puts { Puts (taken_lines n table.now) output.old output.new }
    ensures upper_bound { output.new.at ≤ output.old.at + 110 }
{
    put_saying(b"taken", steps::coarsest(table, n / 2), output);
    put_distance(b"direct", Route::Direct, n, table, output);
    put_offered(b"short", Route::Short, n, table, output);
    put_offered(b"double", Route::Double, n, table, output);
}

// What is printed for a length as it is typed and a table.
fn put_report(number: &[u8], table: &[u8], output: &mut Output)
    requires { HasRoom 110 output.old }
    ensures puts { Puts (report_of number.now table.now) output.old output.new }
    ensures upper_bound { output.new.at ≤ output.old.at + 110 }
{
    let Some(n) = length_of(number) else {
        return output.refusal(1, 0);
    };
    match steps::read(table, n / 2) {
        Ok(_) => put_taken(n, table, output),
        Err(fault) => output.refusal(fault.cause.number(), fault.line),
    }
}

// Writes what is printed for a length as it is typed and a table to the start of a buffer, and answers how many bytes that is.
pub fn report(number: &[u8], table: &[u8], out: &mut [u8; ROOM]) -> usize
    ensures { Written (report_of number.now table.now) out.old out.new result }
{
    let mut output = Output { bytes: out, at: 0 };
    put_report(number, table, &mut output);
    output.at
}
