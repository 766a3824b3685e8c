//! Tests of dates and times, of format items, of padded texts and of what owns its values, from outside the crates: printed texts,
//! a table from elsewhere, a happy path of each call, and what the constants are.
#![tactic(auto)]

#[cfg(test)]
mod tests;
