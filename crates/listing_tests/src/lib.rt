// Tests of the crate `listing`, which stand apart so that its own check stays short.
#![tactic(auto)]

#[cfg(test)]
mod lines;
#[cfg(test)]
mod outline;
#[cfg(test)]
mod tokens;
