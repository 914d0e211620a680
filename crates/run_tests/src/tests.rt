mod marks;
mod ports;
mod reading;
mod runs;
mod sessions;
mod steps;
mod toy;
