//! Courses of a board, alone and shared, from outside, with ample memory. The levels were calculated by an independent
//! program.
#![tactic(auto)]

#[cfg(test)]
mod boards;
#[cfg(test)]
mod edits;
#[cfg(test)]
mod edits_in_threads;
#[cfg(test)]
mod given_back;
#[cfg(test)]
mod late_answers;
#[cfg(test)]
mod one_course;
#[cfg(test)]
mod solving;
