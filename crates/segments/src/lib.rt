// The second order of the events of a trace, by segments: definitions and theorems alone. Crate `ranks` keeps it in cells.
#![tactic(auto)]
