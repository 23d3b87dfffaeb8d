// Term books: what every kind of book is and does, and two kinds, the bare book and the barred book on any other.
#![tactic(auto)]

pub mod bare;
pub mod barred;
pub mod book;
pub mod table;
pub mod theorems;
pub mod whole;
