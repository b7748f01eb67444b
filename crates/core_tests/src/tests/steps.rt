// Tests of runs of the calculus, from terms on.

mod ends;
mod rows;
mod samples;
mod terms;
mod walks;
