mod answers;
mod events;
mod forging;
mod nesting;
mod sequences;
mod views;
