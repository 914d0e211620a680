mod amplifier;
mod declarations;
mod lines;
mod rules;
mod urids;
