// What the C face's words are worth: theorems, in proofs/. There is no code.
