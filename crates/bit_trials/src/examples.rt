//! Examples of the vector: exact words, lists and replies.
mod collecting;
mod commands;
mod converting;
mod copies;
mod edits;
mod growing;
mod making;
mod moves;
mod operators;
mod reading;
mod removing;
mod text;
mod words;
mod writing;
