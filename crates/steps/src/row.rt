// A line of a step table: its three fields, and its numbers where it is one.
ghost use Rattle.std.specs.Prelude.{◌≡◌, ◌≤◌, ◌<◌, ◌-◌, ◌≤ℤ◌, IfSome, pos, length};
ghost use Rattle.steps.specs.Table.{bounded, numbers_of, row_of};
ghost use Rattle.steps.specs.Pass.{IsCut, row_at};
ghost use Rattle.steps.specs.Answers.{line_of, number_within};

use text::line::{COMMA, find};
use text::number::{DIGITS, is_number, value};

/// The numbers of a line: the first and the last coefficient that it covers, and their step.
#[derive(Clone, Copy, Debug, PartialEq, Eq)]
pub struct Row {
    pub first: usize,
    pub last: usize,
    pub step: u32,
}

// Where the two commas of a line are.
#[derive(Clone, Copy)]
pub struct Commas {
    pub a: usize,
    pub b: usize,
}

// A number from least to most.
fn is_bounded(field: &[u8], least: i64, most: i64) -> bool
    ensures { result ≡ bounded least most field.now }
{
    if !is_number(field, DIGITS) {
        return false;
    }
    let v = value(field);
    if v < least {
        return false;
    }
    v <= most
}

// The number of a field, where it is one from least to most.
fn bounded_number(field: &[u8], least: i64, most: i64) -> Option<i64>
    ensures { result ≡ number_within least most field.now }
{
    if is_bounded(field, least, most) {
        Some(value(field))
    } else {
        None
    }
}

// Where the two commas of a line are, where it has just two.
fn cut(line: &[u8]) -> Option<Commas>
    ensures { IsCut line.now result }
{
    let a = find(line, 0, COMMA);
    if a == line.len() {
        return None;
    }
    let b = find(line, a + 1, COMMA);
    if b == line.len() {
        return None;
    }
    if find(line, b + 1, COMMA) == line.len() {
        return Some(Commas { a, b });
    }
    None
}

// The last place, as a number with a sign.
fn last_place(m: usize) -> i64
    requires { (0 < m) × (m ≤ 108) }
    ensures { result ≡ pos (m - 1) }
{
    (m - 1) as i64
}

// The numbers of three fields where they make a line.
#[tactic(auto, unfolding(crate::specs::Table::numbers_of))]
fn numbers(f: &[u8], l: &[u8], s: &[u8], m: usize) -> Option<Row>
    requires { (0 < m) × (m ≤ 108) }
    ensures { line_of result ≡ numbers_of m f.now l.now s.now }
{
    let most = last_place(m);
    let first = bounded_number(f, 0, most)?;
    let last = bounded_number(l, first, most)?;
    let step = bounded_number(s, 1, 65536)?;
    Some(Row {
        first: arithmetic::size(first) as usize,
        last: arithmetic::size(last) as usize,
        step: arithmetic::size(step) as u32,
    })
}

// A line's numbers where it is one.
pub fn read_row(line: &[u8], m: usize) -> Option<Row>
    requires { (0 < m) × (m ≤ 108) }
    ensures { line_of result ≡ row_of m line.now }
{
    let Commas { a, b } = cut(line)?;
    numbers(&line[..a], &line[a + 1..b], &line[b + 1..], m)
}

// The line from a place to its line feed. A last line without its line feed is none.
#[tactic(auto, unfolding(crate::specs::Pass::row_at))]
pub fn read_row_at(table: &[u8], at: usize, end: usize, m: usize) -> Option<Row>
    requires m_nonzero { (0 < m) × (m ≤ 108) }
    requires at_le_end { (at ≤ end) × (end ≤ length table.now) }
    ensures { line_of result ≡ row_at m table.now at end }
{
    if end == table.len() {
        return None;
    }
    read_row(&table[at..end], m)
}
