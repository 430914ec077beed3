//! Tests of the ways of sound in plan, from outside: lengths, crossings of obstacles, reflections and strings. Each expected
//! value was calculated by an independent exact program; what is found by an index is expected as without it.
#![tactic(auto)]

#[cfg(test)]
mod cells;
#[cfg(test)]
mod crossings;
#[cfg(test)]
mod lengths;
#[cfg(test)]
mod near;
#[cfg(test)]
mod obstacles;
#[cfg(test)]
mod places;
#[cfg(test)]
mod reflections;
#[cfg(test)]
mod strings;
