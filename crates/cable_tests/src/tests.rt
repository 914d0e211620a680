mod rings;
mod threads;
