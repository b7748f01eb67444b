// Tests by subject, and what they share.

mod assembled;
mod blocks;
mod code;
mod images;
mod instructions;
mod machines;
mod memories;
