// Records on small examples and at their limits: nothing but tests.
#![tactic(auto)]

#[cfg(test)]
mod cases;
#[cfg(test)]
mod made;
#[cfg(test)]
mod passes;
