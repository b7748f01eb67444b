// Tests of casts in storage: the procedures of `rt_cast` as images, against coercions in tables.

mod codes;
mod coercions;
mod compositions;
mod machines;
mod pools;
mod proxies;
mod random;
mod rows;
mod samples;
mod trees;
