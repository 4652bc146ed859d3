// Step tables that customers edit: the verdict on a table's bytes, and the steps that a table gives.
#![tactic(auto)]

mod fault;
mod joint;
mod row;

ghost use Rattle.std.specs.Prelude.{◌≡◌, ◌≤◌, ◌<◌, IfOk, length, take};
ghost use Rattle.arithmetic.specs.Lists.{table as Lists·table};
ghost use Rattle.steps.specs.Table.{row_of, table_code, step_at};
ghost use Rattle.steps.specs.Table.{verdict as Table·verdict, coarsest as Table·coarsest};
ghost use Rattle.steps.specs.Answers.{verdict_of};

pub use fault::Fault;
use joint::{closing, joint};
use refusals::Refusal;
use row::{read_row, read_row_at};
use text::line::{LINE_FEED, find};

// The most places of a table: the coefficients of the longest block.
const PLACES: usize = 108;

// A table has m places, 1 to 108, each function of this crate asks: m is the hop of a block, which is no value of this crate's.
// The step of a line, and 0 where it is none.
fn step_of(line: &[u8], m: usize) -> u32
    requires { (0 < m) × (m ≤ 108) }
    ensures { result ≡ (row_of m line.now).step }
{
    match read_row(line, m) {
        Some(row) => row.step,
        None => 0,
    }
}

/// The largest step of a table that is taken, of m places: 1 to 65,536.
pub fn coarsest(table: &[u8], m: usize) -> u32
    requires m_nonzero { (0 < m) × (m ≤ 108) }
    requires table_taken { table_code m table.now ≡ 0 }
    ensures { result ≡ Table·coarsest m table.now }
{
    let mut at = 0;
    let mut most: u32 = 0;
    // From line to line by hand: split_inclusive would hand out a line with its line feed, and a last one without, to be told apart and cut again.
    while at < table.len() {
        let end = find(table, at, LINE_FEED);
        most = most.max(step_of(&table[at..end], m));
        at = end + 1;
    }
    most
}

/// Reads any bytes as a table of m places, the length of `steps`, into which it writes the step of each. Line (9): a line is none, before all else. Gap (10) and
/// Overlap (11): the first joint at fault, kept until every line is read. Refused, nothing is said of the steps but their number.
pub fn read_into(table: &[u8], m: usize, steps: &mut [u32]) -> Result<(), Fault>
    requires m_nonzero { (0 < m) × (m ≤ 108) }
    requires steps_len { length steps.old ≡ m }
    ensures verdict { verdict_of result ≡ Table·verdict m table.now }
    ensures steps_after { table_code m table.now ≡ 0 → steps.new ≡ Lists·table m (step_at m table.now) }
{
    let mut at = 0;
    let mut line = 1;
    let mut next = 0;
    let mut found = Ok(());
    // By hand, as in `coarsest`.
    while at < table.len() {
        let end = find(table, at, LINE_FEED);
        let Some(row) = read_row_at(table, at, end, m) else {
            return Err(Fault::new(Refusal::Line, line));
        };
        found = joint(found, line, next, row.first);
        next = row.last + 1;
        steps[row.first..next].fill(row.step);
        at = end + 1;
        line += 1;
    }
    closing(found, next, m)
}

// A function of its own: of an array that is made in the body the proof of its part did not close.
fn room() -> [u32; PLACES]
    ensures { length result ≡ 108 }
{
    [0; PLACES]
}

/// The same by value, in front of room for the steps of the longest block.
pub fn read(table: &[u8], m: usize) -> Result<[u32; PLACES], Fault>
    requires { (0 < m) × (m ≤ 108) }
    ensures verdict { verdict_of result ≡ Table·verdict m table.now }
    ensures room { IfOk result (λ each. m ≤ length each) }
    ensures steps { IfOk result (λ each. take m each ≡ Lists·table m (step_at m table.now)) }
{
    let mut each = room();
    read_into(table, m, &mut each[..m])?;
    Ok(each)
}
