//! Rows over what is marked. Of the files some are class files, one of them of the class Main, and the others have
//! rows. There a `#` begins a remark, and a row is a line `WORD.. => MARKED.. | CLASS..`: what happens, the methods
//! that are marked behind it, a root with a `!`, and the classes that have other marks than those that were shown last,
//! in load order. A row with no `=>` has words alone, and no marks are looked at.
//!
//! The words of a row, where CLASS is the name of a class, and METHOD a class, a point and a name:
//!
//! - `load:CLASS`: the class is loaded, with those that it needs
//! - `enter:METHOD`: the method is entered; `again:METHOD`: ten million times
//! - `select:METHOD`, `deselect:METHOD`: it is selected, or is selected no more
//! - `quiet`: no method is entered any more; `show`: the marks are shown
//! - `selected:METHOD`, `unselected:METHOD`, `any_selected`, `none_selected`: whether it is selected, or any method is
//! - `begins:METHOD=METHOD,..`: the methods that it can begin, in order, and nothing behind the `=` for none

pub mod item;
pub mod judging;
pub mod looking;
pub mod making;
pub mod names;
pub mod parts;
pub mod playing;
pub mod reading;
pub mod scenes;
pub mod spent;
