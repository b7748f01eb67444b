// Tests by subject, and what they share.

mod casts;
mod codes;
mod programs;
mod readings;
mod registers;
