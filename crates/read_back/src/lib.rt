// The claim that what a batch's answer says can be read back after a cut, of the program: it speaks of preparing and of observing, so
// it stands apart from both. There is no code here.
#![tactic(auto)]
