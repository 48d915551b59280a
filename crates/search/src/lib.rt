// The best k of some things and the search for them over cells, for any rank order and any cells. There is no code here.
#![tactic(auto)]
