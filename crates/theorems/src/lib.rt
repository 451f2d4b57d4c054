// What follows from the definitions alone: the sheets of document 01, P1 to P9, and that a solve and a check look only below the counts.

#![tactic(auto)]
