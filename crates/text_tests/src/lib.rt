//! Tests of what comes in and goes out as text, from outside: words, rows, contours and generated sites.
#![tactic(auto)]

#[cfg(test)]
mod contours;
#[cfg(test)]
mod rows;
#[cfg(test)]
mod sites;
#[cfg(test)]
mod words;
