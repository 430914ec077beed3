//! Tests of bundles and levels, and of a refresh, from outside: each expected value was calculated by an independent program.
#![tactic(auto)]

#[cfg(test)]
mod bundles;
#[cfg(test)]
mod paths;
#[cfg(test)]
mod refreshes;
#[cfg(test)]
mod row_sums;
#[cfg(test)]
mod scenes;
