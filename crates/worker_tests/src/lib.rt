//! Lines, sources and sinks from outside, and turns and workers, by one thread and by several, of which no contract says
//! that they end.
#![tactic(auto)]

#[cfg(test)]
mod streams;
#[cfg(test)]
mod turns;
#[cfg(test)]
mod workers;
