//! What is answered for as many methods and classes as a program may have. Refusals, each with its cause, are rows of
//! worked_rows (admission).

mod counts;
