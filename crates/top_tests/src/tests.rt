mod check;
mod ended;
mod render;
mod stock;
