// What is proved of the definitions themselves. This function does nothing; it has a theorem for its contract.
ghost use Rattle.tariff_format.specs.Laws.{FilesStand};

// A lawful tariff has one file, which reads back as it, and no other bytes are taken or refused than the words say.
pub fn files_stand()
    ensures { FilesStand }
{}
