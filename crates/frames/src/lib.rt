// The lines of a run file, each by itself (RULES 11).
#![tactic(auto)]

pub mod header; // header.rt: line 1
pub mod frame; // frame.rt: the lines of words
pub mod output; // output.rt: the lines that are written
