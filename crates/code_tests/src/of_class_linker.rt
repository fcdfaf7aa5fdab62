//! What loads in programs of small classes and the built-in ones, also where memory runs out. Programs at the corners of
//! the rules are rows of worked_rows (vectors); where members are found and which methods are selected is worked in
//! class_index (WorkedLookups) and class_linker (WorkedCalls).

mod classes;
mod loads;
mod wants;
