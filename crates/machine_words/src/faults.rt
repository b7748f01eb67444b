// How the machine goes wrong.

/// How a run goes wrong, each with the address of the instruction that stopped.
#[derive(Clone, Copy, PartialEq, Eq)]
pub enum MachineFault {
    /// The word is no instruction, or the environment has no such call.
    Undefined(u64),
    /// The instruction, or what it reads or writes, doesn't lie where it may.
    BadAddress(u64),
    /// What it reads, writes or jumps to isn't aligned.
    Misaligned(u64),
}
