//! Formats that are written and read by fields.
pub(crate) mod header;
pub(crate) mod listed;
pub(crate) mod tagged;
