// What a signer reads: the theorems over the public contracts. There is no code here.
// `proofs/Demands.antt` has the demands, `proofs/Refusals.antt` what is refused, with which number and file, `proofs/Agreement.antt` what the paper
// says of cuts by clocks and by messages, `proofs/Numbers.antt` that the numbers of `specs/Numbers.antt` are those of the bytes,
// `proofs/Determined.antt` that each contract allows one answer, `proofs/Different.antt` that two answers never have the same lines, `proofs/Enough.antt`
// how long they can be, `proofs/Marked.antt` the marked cases.
#![tactic(auto)]
