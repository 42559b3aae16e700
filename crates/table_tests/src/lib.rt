// Tests of names and scopes: the limits, reached and passed, and the rules by example.
#![tactic(auto)]

#[cfg(test)]
mod declaration_tests;
#[cfg(test)]
mod name_tests;
#[cfg(test)]
mod scope_tests;
