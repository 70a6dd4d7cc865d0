// Pure lemmas: sums below a bound, counts, sorted lists, residues. There is no function here.
#![tactic(auto)]
