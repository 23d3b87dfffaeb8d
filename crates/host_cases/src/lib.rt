// The host call on small examples: nothing but tests.
#![tactic(auto)]

#[cfg(test)]
mod cases;
