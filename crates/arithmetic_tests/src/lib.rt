//! Tests of the intervals, their powers, logarithms, energies and attenuations, from outside: each expected value was
//! calculated by an independent program.
#![tactic(auto)]

#[cfg(test)]
mod attenuations;
#[cfg(test)]
mod ends;
#[cfg(test)]
mod energies;
#[cfg(test)]
mod intervals;
#[cfg(test)]
mod logarithms;
#[cfg(test)]
mod powers;
