// The planner for C: the calls of include/hopper.h, each over one call of a library.
#![tactic(auto)]

mod files;
mod fills;
mod numbers;
mod sheets;
mod shifts;
