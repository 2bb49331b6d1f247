//! Tests by what they are of.
mod alignment;
mod counters;
mod life_frames;
mod mark_files;
mod nodes;
mod played;
mod player;
mod publishing;
mod same;
mod vectors;
