// The batch program's report, from input bytes to output bytes. Its code comes with the program.
#![tactic(auto)]
