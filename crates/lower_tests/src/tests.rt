// Tests by subject, and what they share.

// A row of a table of programs: turns one after another, the last of which ends the body, and what the image comes to.
macro_rules! program {
    ($($turn:expr),* ; $last:expr => $end:expr) => {
        Program { turns: &[$($turn),*], last: $last, end: $end }
    };
}

mod images;
mod merged;
mod piled;
mod programs;
