// The worked examples of the rules, gathered as one table: proofs/Table.antt. There is no code here.
#![tactic(auto)]
