mod faults;
mod objects;
mod reading;
mod requests;
mod writing;
