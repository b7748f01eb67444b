// Tests by subject, and what they share.

mod audits;
mod elaborations;
mod forms;
mod words;
