// General laws that every crate cites: of tests, lists, orders, signed numbers, and of contracts that are equations. There is no code here.
#![tactic(auto)]
