//! Tests of the plan's geometry, of the parts of a scene and of its edits, from outside: each expected value was calculated
//! by an independent program.
#![tactic(auto)]

#[cfg(test)]
mod edits;
#[cfg(test)]
mod foliage;
#[cfg(test)]
mod outlines;
#[cfg(test)]
mod parts;
#[cfg(test)]
mod sides;
#[cfg(test)]
mod steps;
