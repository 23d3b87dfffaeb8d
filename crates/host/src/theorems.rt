// What is proved of the host call's answers: each function's contract is a theorem, and it does nothing.
ghost use Rattle.host.specs.Decides.{HostDecides, HostAnswersListed};

// The bytes decide the answer and every byte of the output.
pub fn host_decides()
    ensures { HostDecides }
{}

// The call answers 0, 1 or 2, or it answers 101, 102, 103, 104, 106 or 113 and leaves the output as it was.
pub fn host_answers_listed()
    ensures { HostAnswersListed }
{}
