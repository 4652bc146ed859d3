// One block by the routes that split it, one body for every length: `short` has the short route's and `double` the double one's, which windows a block as the short route does.
// No function here is a public call: `analysis` calls the two, after every check.
#![tactic(auto)]

pub mod double;
pub mod short;
