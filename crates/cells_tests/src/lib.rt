//! Tests of cells.
#![tactic(auto)]

mod cells;
