//! Tests of command lines and of line sources, from outside.
#![tactic(auto)]

#[cfg(test)]
mod commands;
#[cfg(test)]
mod ground_rows;
#[cfg(test)]
mod lines;
#[cfg(test)]
mod request_rows;
#[cfg(test)]
mod rows;
