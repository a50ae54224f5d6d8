//! Views for reading, for writing and for counted calls, and callers that are proved from the contracts alone.
mod callers;
mod calls;
mod compared;
mod counted;
