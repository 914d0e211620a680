mod attempts;
mod jobs;
mod states;
