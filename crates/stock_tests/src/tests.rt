mod bench;
mod called;
mod declared;
mod held;
mod played;
mod refused;
mod told;
