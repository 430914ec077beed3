//! Tests of the attenuations by the ground, by foliage and by screening, from outside: each expected value was calculated
//! by an independent exact program.
#![tactic(auto)]

#[cfg(test)]
mod foliage_terms;
#[cfg(test)]
mod ground_terms;
#[cfg(test)]
mod screening_terms;
#[cfg(test)]
mod shared;
#[cfg(test)]
mod simple_terms;
