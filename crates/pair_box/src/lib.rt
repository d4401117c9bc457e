// The floor box as an end of the pair, and what it owes the head: see specs/. There is no code.
