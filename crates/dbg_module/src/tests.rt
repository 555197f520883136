mod bench;
mod commands;
mod control;
mod registers;
