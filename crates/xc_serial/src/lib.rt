//! The text of a script alone: its jobs' transactions, job after job, on the plain machine, where no call meets a fault, printed
//! without lines on kept data. Laws, with no code: a run without faults, whose jobs ran one after another, has that text; and a run that
//! nothing disturbed is done.
#![tactic(auto)]

pub mod runs;
