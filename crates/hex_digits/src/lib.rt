// Hexadecimal digits, read and written: document 01, "Settings and the log".
#![tactic(auto)]

pub mod hex; // hex.rt: what bytes are as digits, and numbers in digits
