//! What only running shows of the crates below: devices that fail at a call, nesting at the limits within the stack,
//! threads, and values that no text has.
//!
//! A crate with tests is proved twice, so the tests of all libraries stand here. What a line of data can say is a case
//! of `mm_cases`.
#![tactic(auto)]

#[cfg(test)]
mod certificates;
#[cfg(test)]
mod checking;
#[cfg(test)]
mod devices;
#[cfg(test)]
mod goals;
#[cfg(test)]
mod numbers;
#[cfg(test)]
mod polynomials;
#[cfg(test)]
mod running;
#[cfg(test)]
mod texts;
