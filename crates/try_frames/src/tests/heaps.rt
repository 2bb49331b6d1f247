//! What the calls that may want memory answer on small heaps of falling size: the writers of frames, which append to what the heap holds,
//! and framers, sessions, clients and the ring of recent frames, which reserve their room once. The contracts say that such a call fails only
//! for want of memory; here it really happens, and what the smallest heap holds works.
mod falling;
mod line;
mod same;
mod sizes;
mod smallest;
mod writers;
