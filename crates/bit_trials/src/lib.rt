//! What users of the containers get: callers that are proved from the contracts alone, examples of the vector, and calls
//! with memory refused and at the limits of lengths. All of it is tests.
#![tactic(auto)]

#[cfg(test)]
mod callers;
#[cfg(test)]
mod common;
#[cfg(test)]
mod examples;
#[cfg(test)]
mod orders;
#[cfg(test)]
mod radix;
#[cfg(test)]
mod tests;
