// Books on small examples and at their limits: nothing but tests.
#![tactic(auto)]

#[cfg(test)]
mod bars;
#[cfg(test)]
mod closing_on;
#[cfg(test)]
mod line_books;
#[cfg(test)]
mod made;
#[cfg(test)]
mod worlds;
