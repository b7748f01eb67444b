// Tests by subject, and what they share.

mod coercions;
mod relations;
mod samples;
mod types;
