// Tests of places for the registers of virtual codes: which fit, and the real code that they make.

mod listings;
mod places;
