//! Tests of which paths and receivers an edit touches, from outside: each answer is that of an independent program.
#![tactic(auto)]

#[cfg(test)]
mod paths;
#[cfg(test)]
mod scenes;
#[cfg(test)]
mod touches;
