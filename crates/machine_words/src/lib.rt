//! Words of 64 bits and the memory they stand in, whatever runs over them: their arithmetic, what conditions compare,
//! what stores and loads give, and how a run halts.
//!
//! The definitions stand in `specs`. A function here does nothing: its contract is a law of them.
#![tactic(auto)]

pub mod conditions;
pub mod faults;
pub mod words;

ghost use Rattle.machine_words.specs.Halts.{ending_of, stop_of, IsReading};

/// The first address of memory.
pub const FIRST_ADDRESS: u64 = 65_536;

/// Both readings of stops as endings take a run that went wrong, and no other, as wrong: that by which want of room is
/// no verdict, and that by which it is one.
pub fn the_readings_take_faults_as_wrong()
    ensures endings { IsReading ending_of }
    ensures stops { IsReading stop_of }
{}
