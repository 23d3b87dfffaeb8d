// What is proved of world books: the function's contract is the theorem, and it does nothing.
ghost use Rattle.world_book.specs.Theorems.{WorldBooksSay};

pub fn world_books_say()
    ensures { WorldBooksSay }
{}
