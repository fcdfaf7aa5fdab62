//! Rows over a machine of versions: the file of a row names class files, and says line by line what is installed and
//! what each turn of the machine must tell.
//!
//! The lines of a row, where CLASS is the name of a class, and METHOD a class, a point, a name and a descriptor:
//!
//! - `class FILE`: a class of the program, in order; `main CLASS`: its main class; a `#` and a space begin a remark
//! - `install CLASS MARKS`: the class is redefined by its image, a letter a method: O for none, P for plain, R for root
//! - `refused CLASS FILE CAUSE..`: the file does not redefine the class, for `NotSameShape NUMBER`, `Unreadable
//!   BadMagic` or `Unreadable Truncated OFFSET`
//! - a turn, which is that of one step: `loaded CLASS..`, `settled CLOCK`, `ended CLOCK ENDING`, or an event `KIND
//!   METHOD CLOCK` of the kind `root`, `enter`, `leave` or `unwind`
//! - ENDING: `returned`, `exited STATUS`, `uncaught CLASS` or `unverifiable METHOD OFFSET`
//! - `run MOST TURN`: the turn is the last of as many steps as tell nothing, at most so many
//! - `times COUNT TURN`: the same turn so many times
//! - `settled LAST` where a line begins: each step from the next one to this clock settles
//! - `each FIRST LAST KIND METHOD`: the event at each of these clocks, behind which the step settles
//! - `printed TEXT`: what the program has written, a line, or nothing; `live COUNT`: how many activations are live

pub mod installing;
pub mod judging;
pub mod line;
pub mod making;
pub mod names;
pub mod parts;
pub mod playing;
pub mod reading;
pub mod saying;
pub mod telling;
pub mod turns;
pub mod words;
