// Growth of a book's network as a definition, with the arcs that it notes, and books computed by it. The code is in the
// crates above.
#![tactic(auto)]
