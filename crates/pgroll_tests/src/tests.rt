mod calls;
mod commands;
mod engine;
mod statements;
mod wanting;
