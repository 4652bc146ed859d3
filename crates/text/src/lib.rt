// Text as bytes: numbers, lines, fields, columns, and printing them into a buffer.
// No function here is a public call: `listing`, `page` and the reports call them, each under its requires.
#![tactic(auto)]

pub mod columns;
pub mod line;
pub mod number;
pub mod output;
