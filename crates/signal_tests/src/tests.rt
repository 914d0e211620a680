mod blocks;
mod desks;
mod echoes;
mod messages;
mod outcomes;
mod setups;
