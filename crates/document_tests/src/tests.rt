mod counts;
mod depth;
mod faults;
mod fronts;
mod listings;
mod reading;
