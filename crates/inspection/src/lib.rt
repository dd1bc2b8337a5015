// What a patch comes to without a document, and the count over a list of patch files: SPECIFICATION 14, T-12. There is
// no code here: the definitions are in specs/, their laws in proofs/.
#![tactic(auto)]
