// Tests by subject, and what they share.

mod closures;
mod coercions;
mod procedures;
mod samples;
mod steps;
mod terms;
mod typing;
