// Document 01's worked sums that it marks P: specs/Sums.antt states them in one table over the definitions. There is no code here.
#![tactic(auto)]
