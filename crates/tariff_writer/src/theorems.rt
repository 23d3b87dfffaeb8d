// What is proved of files. These functions do nothing; each has a theorem for its contract.
ghost use Rattle.tariff_writer.specs.Theorems.{LargestFile, SmallFile};

// No lawful file has more than 47,110 bytes, and one has as many.
pub fn largest_file()
    ensures { LargestFile }
{}

// The file of a small tariff is these 21 bytes.
pub fn small_file()
    ensures { SmallFile }
{}
