//! Lemmas on lists that std does not have: what a short list contains, and what holds for each element.
//!
//! It has no code. Crates that depend on no other crate of this repository use these lemmas too, so this crate is below
//! all others.
#![tactic(auto)]
