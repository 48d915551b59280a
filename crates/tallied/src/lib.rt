// The text of a log, said by the calls that keep senders and tallies: it is the log program's own (proofs/Same.antt). There is no code here.
#![tactic(auto)]
