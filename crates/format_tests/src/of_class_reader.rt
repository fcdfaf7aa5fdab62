//! Class files of the greatest counts. Files with a fault, cut files and those of the greatest length are rows of
//! worked_rows; a class with each part is read and written in proofs/WorkedClassBytes.

mod large;
