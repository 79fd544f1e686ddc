//! What each insertion mode makes of marks.
mod answers;
mod body;
mod frames;
mod head;
mod phrases;
mod table_rows;
mod tables;
