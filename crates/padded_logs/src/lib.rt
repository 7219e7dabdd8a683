// Logs with four-digit case counts, as they were written before counts had eight digits, and what
// the calls answer for them once 0000 stands before every line: as claims about the definitions. It
// has no code.
#![tactic(auto)]
