// A lent table of current records: what its slots hold, and what an offer changes. Definitions and theorems alone.
#![tactic(auto)]
