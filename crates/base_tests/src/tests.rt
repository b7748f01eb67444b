// Tests by subject, and what they share.

mod dyns;
mod files;
mod labels;
mod laws;
mod lists;
mod numbers;
mod refusals;
mod shelves;
mod sinks;
mod storage;
mod texts;
mod verdicts;
mod worlds;
