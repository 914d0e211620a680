mod setups;
mod summaries;
