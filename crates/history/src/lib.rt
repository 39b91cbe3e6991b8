// Demand 3, proved over the definitions of spec alone: what histories leave on the image, and that mount finds it again.
// There is no code here, only proofs (specs/, and proofs/ for the theorems at the top).
#![tactic(auto)]
