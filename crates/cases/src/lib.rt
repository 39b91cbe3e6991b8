// The cases marked * of document 01, "Cases, N = 8,192", proved together as one table with one statement.
// specs/Case.antt says what a case states, specs/Table.antt lists the cases, specs/Proof.antt proves them all.
#![tactic(auto)]
