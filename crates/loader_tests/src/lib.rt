//! Tests of the parts of the loader, over public calls: which file a path means, and the places of bytes.
#![tactic(auto)]

#[cfg(test)]
mod lines;
#[cfg(test)]
mod paths;
