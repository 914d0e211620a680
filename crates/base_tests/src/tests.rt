mod hashes;
mod numbers;
mod samples;
mod sinks;
mod texts;
mod vaults;
