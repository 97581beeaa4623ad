//! Forms of the grammar: each production is one term, and each law on it one line. It stands on the
//! steps of `token_reader` and on the places of `estelle_tree`. It has definitions, in `specs/`, and
//! lemmas, in `proofs/`, alone: for each way of putting parts together, what a parser of the whole does.
#![tactic(auto)]
