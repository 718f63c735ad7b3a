// What changed between two caches of one gauge (document 02, request 10), on lists of records: what is listed, and what the list makes of the first cache.
// No code: crate `changes` writes the list.
#![tactic(auto)]
