//! Tests of the server, from its readers to the file that it leaves, of what no clause says.
#![tactic(auto)]

#[cfg(test)]
mod tests;
