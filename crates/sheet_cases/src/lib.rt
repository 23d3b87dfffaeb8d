// Sheets and lists of calls on small examples and at their limits: nothing but tests.
#![tactic(auto)]

#[cfg(test)]
mod lists;
#[cfg(test)]
mod made;
#[cfg(test)]
mod sheets;
