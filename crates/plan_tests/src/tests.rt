mod generated;
mod loading;
mod scripts;
