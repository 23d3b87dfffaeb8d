// What is proved of the definitions themselves. These functions do nothing; each has a theorem for its contract.
ghost use Rattle.tariff.specs.Laws.{NumbersStand, FactsStand};

// A number has one form, which reads back as it, and no other bytes are taken or refused than the words say.
pub fn numbers_stand()
    ensures { NumbersStand }
{}

// A set of a width has one facts string, which reads back as it, and no other bytes are taken or refused than the words say.
pub fn facts_stand()
    ensures { FactsStand }
{}
