mod files;
mod jobs;
mod reading;
mod rules;
mod shelves;
mod sizes;
