// A table in two lent buffers of bytes: what its entries promise, and the theorem over runs of offers. Definitions and
// theorems alone.
#![tactic(auto)]
