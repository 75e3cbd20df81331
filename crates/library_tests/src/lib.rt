//! Tests of the libraries by their public calls. They test what no clause says: that a call succeeds if there is
//! memory, and the exact bytes and rows that were worked out by hand.
//!
//! A crate with tests is proved twice. So these tests are here, above the libraries that they call, and each library is
//! proved once.
#![tactic(auto)]

#[cfg(test)]
mod tests;
