// A multigraph known by its laws: links, Eulerian uses, and partial tours. It has definitions and theorems, and no code.
#![tactic(auto)]
