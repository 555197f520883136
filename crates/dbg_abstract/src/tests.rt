mod harts;
mod registers;
mod running;
mod starting;
