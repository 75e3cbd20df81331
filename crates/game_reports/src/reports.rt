// The reports, each in a file of its own.
pub mod acts;
pub mod events;
pub mod profile;
pub mod trace;
