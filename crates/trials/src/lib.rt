// The tests that run: tables of cases for the calls of the libraries, and a board and a vessel as a buyer would make them.
#![tactic(auto)]

#[cfg(test)]
mod ahead;
pub mod bought;
#[cfg(test)]
mod files;
#[cfg(test)]
mod lines;
#[cfg(test)]
mod marks;
#[cfg(test)]
mod rows;
#[cfg(test)]
mod shifts;
#[cfg(test)]
mod tables;
#[cfg(test)]
mod writing;
