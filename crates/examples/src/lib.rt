// Worked examples: a table of them that is proved, a host that lends its records, and tests of every refusal.
//
// `worked` has the table `Worked` of specs/, row by row over the definitions that the contracts cite. `lending`
// shows what a host may know of the memory that it lent once the live table is gone. The other modules hold
// tests. All expected values are worked out by hand from docs/.

#![tactic(auto)]

pub mod lending;
#[cfg(test)]
mod numbers;
#[cfg(test)]
mod plans;
#[cfg(test)]
mod schedules;
#[cfg(test)]
mod takes;
#[cfg(test)]
mod texts;
#[cfg(test)]
mod times_tests;
pub mod worked;
