//! Tests by what they are of.
mod blocks;
mod commands;
mod configurations;
mod damaged;
mod frames;
mod heaps;
mod same;
mod show_failures;
mod vectors;
mod watch;
mod words;
mod written_again;
