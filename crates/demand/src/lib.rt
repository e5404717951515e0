// Demand 3 of document 01, sentence by sentence, and when an outline is refused: theorems over the calls of the other crates, and no code. What they speak of stands in
// specs/; they are proofs/DemandThree.antt, proofs/RefusedWhen.antt and proofs/Freely.antt. And of demand 1 the proofs of the calls, proofs/Ends.antt.
#![tactic(auto)]
