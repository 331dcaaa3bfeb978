mod editor;
mod ends;
mod links;
mod owners;
mod terminal;
mod windows;
