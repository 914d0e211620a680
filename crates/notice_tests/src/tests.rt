mod atoms;
mod messages;
mod notices;
mod properties;
mod texts;
