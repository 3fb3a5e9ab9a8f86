//! Tests of the libraries that no row of `worked` can say: bounds beside plain programs of their definitions and beside
//! worked values, lines, growths that `rt try --test --fail-alloc N` refuses, and readers and writers that are
//! interrupted. They stand apart from the crates that they test, so that these are proved once, and not once more with
//! their tests.
#![tactic(auto)]

#[cfg(test)]
mod bounds;
#[cfg(test)]
mod lines;
#[cfg(test)]
mod stores;
#[cfg(test)]
mod streams;
