//! Tests of what undoes an edit.
#![tactic(auto)]

#[cfg(test)]
mod inverses;
