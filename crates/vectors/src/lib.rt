// What the test program judges an answer by: the figures of the separate calculation, a whole vector of it, two numbers around a figure.
#![tactic(auto)]

pub mod bounds;
pub mod figures;
pub mod judging;
pub mod table;
