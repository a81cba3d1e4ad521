//! Worked examples of numbers, cells, graphs and snapshots, in tests. What they want was worked out by hand.
#![tactic(auto)]

#[cfg(test)]
mod bins;
#[cfg(test)]
mod cells;
#[cfg(test)]
mod covers;
#[cfg(test)]
mod graphs;
#[cfg(test)]
mod numbers;
#[cfg(test)]
mod snapshots;
