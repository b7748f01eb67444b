// Tests by subject, and what they share.

mod arithmetic;
mod calls;
mod casts;
mod closed;
mod machines;
mod programs;
mod proxies;
mod selections;
mod sizes;
mod storage;
mod walks;
