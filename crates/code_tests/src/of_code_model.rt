//! Layouts at the limits of branches and of lengths. Worked codes, their faults and their layouts are computed in
//! proofs/WorkedCodes and proofs/WorkedLayouts.

mod laying;
