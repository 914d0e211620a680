mod declared;
mod graphs;
