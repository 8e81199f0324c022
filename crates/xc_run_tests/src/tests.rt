mod finishing;
mod pace;
mod workers;
