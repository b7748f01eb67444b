// Conditions on two words.

/// What is asked of two words: `Lt` and `Ge` compare them as signed numbers, `Ltu` and `Geu` as unsigned ones.
#[derive(Clone, Copy, PartialEq, Eq)]
pub enum Cond {
    Eq,
    Ne,
    Lt,
    Ge,
    Ltu,
    Geu,
}
